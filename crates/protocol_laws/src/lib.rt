// Laws of the session messages as a whole: no code, only what is proved of the definitions of `protocol`. They stand apart so that a change of the code
// need not wait for them.
#![tactic(auto)]
