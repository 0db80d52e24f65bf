// Document 01's "Table to be proved", as one theorem over the definitions: `table` in specs/Table.antt. There is no code here.
#![tactic(auto)]
