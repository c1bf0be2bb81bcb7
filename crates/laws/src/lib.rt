// Laws of the definitions, each stated once over stride, height, band or index: specs/ holds them all. No function has a body here.
#![tactic(auto)]
