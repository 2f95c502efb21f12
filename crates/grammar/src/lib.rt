// What a text is has no code of its own: the grammar, apart from the reader.
#![tactic(auto)]
