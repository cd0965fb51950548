// What one lost frame is: its definition stands in specs/, and `decode_lost` (ref_decode) meets it.

#![tactic(auto)]
