// Document 01's figures that are to be proved, in one list: proofs/Figures.antt. Each is what the contract of a public function says of it. The small
// inputs of its refusal table are in proofs/Refusals.antt.

#![tactic(auto)]
