// The promise that holds of every public function of the libraries (01, 'Holding the promises to account'): every input, refused ones too,
// determines the answer and the final lent memory. Theorems alone; there is no code here.
#![tactic(auto)]
