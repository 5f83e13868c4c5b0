// Thinning a negative's keypoints: nothing to run.
#![tactic(auto)]
