// Theorems only: the columns of document 003's tables, proved of the plain step. They are in specs/.

#![tactic(auto)]
