// No code: one transaction at a replica, computed on the bytes of its image.
#![tactic(auto)]
