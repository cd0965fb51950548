// No code: how loud the noise of a lost frame is, before its gains: see specs/.

#![tactic(auto)]
