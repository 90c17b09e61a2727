// Which number of a row is which. A text has its place and, as the number after that, its length.

// A claim or a step begins with its text and a number; a step has a flag after them.
pub(crate) const LABEL_NAME: usize = 0;

pub(crate) const LABEL_NUMBER: usize = 2;

pub(crate) const STEP_SCAN: usize = 3;

// A row of ids or of pairs is the id alone.
pub(crate) const ID: usize = 0;

// A type: its id, its name, whether it is virtual, whether it has a value, and its key's node.
pub(crate) const TYPE_ID: usize = 0;

pub(crate) const TYPE_NAME: usize = 1;

pub(crate) const TYPE_VIRTUAL: usize = 3;

pub(crate) const TYPE_VALUE: usize = 4;

pub(crate) const TYPE_KEY: usize = 5;
