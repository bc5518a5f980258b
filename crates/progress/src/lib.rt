// No code: that the oldest transaction gets through (document 02, 2.8), stated and proved of the station's steps and of the service's.
#![tactic(auto)]
