// The autocorrelation of packet-loss concealment.

#![tactic(auto)]

pub mod autocorr;
