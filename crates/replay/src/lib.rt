// Trails and their replay, over the definitions: nothing here runs yet.
#![tactic(auto)]
