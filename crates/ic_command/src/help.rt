/// The help of a session that explains itself: a line for each command and question.
pub const HELP: &str = "net: print the net
agents: name the agent of each printed line
active: list the active pairs
fire A B: fire the active pair of the agents A and B, such as fire 0 1
step: fire the active pair with the least lead
step N: fire up to N active pairs, each time the one with the least lead
reduce N: fire up to N active pairs
undo A B: undo the event of A and B, if no other depends on it
unwind A B: undo the event of A and B and all that depends on it
undo-all: undo all events
unstep: undo the event that was fired last
unstep N: undo up to N events, each time the one that was fired last
why A B: tell the rank and the direct causes of an event
causes: list the events that stand, each with its rank and its direct causes
dependents A B: list what unwind would undo
wire A P: tell the other end of the wire at port P of the agent A, and the events that made it, such as wire 0 2
wire NAME: tell the same of the wire at this free name
journal: list the events that stand
history: list all calls so far with their answers
mark NAME: note which events stand
marks: list the marks
back NAME: go back to the events of the mark
absorb K: fire the events that the next K lines list
rules: tell what a firing does
new: end this net and read another, up to a line ---
quit: end the session
";
