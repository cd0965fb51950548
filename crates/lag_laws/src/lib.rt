// No code: laws on the lag that the search finds, which no function needs: see specs/.

#![tactic(auto)]
