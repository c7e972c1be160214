// The fillet for C: each function of `capi_fillet` under its own name, with the same clauses. See there.

#![tactic(auto)]

mod fillet;
