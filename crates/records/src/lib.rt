// Records that lie end to end, each as long as it says itself: definitions (specs/) and laws (proofs/) over the function that
// says how long the record at a place is. Short-form attributes and directories are instances. There is no code here.
#![tactic(auto)]
