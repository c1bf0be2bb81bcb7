// The theorem about driven panels: what the line driver sends through the glass controller is what direct sends leave. No function has a body here.
#![tactic(auto)]
