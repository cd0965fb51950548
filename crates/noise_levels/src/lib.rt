// No code: how loud each band of a lost frame's noise is, before its gains: see specs/.

#![tactic(auto)]
