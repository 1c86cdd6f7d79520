// What the entries answer over whole recordings, call after call: see specs/ and proofs/. The entries are in `dem_messages` and `dem_recordings`.
#![tactic(auto)]
