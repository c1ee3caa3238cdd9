// No function: that no contract of a public function leaves a choice.
#![tactic(auto)]
