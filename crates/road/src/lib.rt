// The road from stack to sheet: no stage refuses what the stage before made.
#![tactic(auto)]
