/// The version of the program.
pub const VERSION: &str = "0.2.0";

/// How the program is called.
pub const USE: &str =
    "icbench [--workers 1..64] [--budget 0..1048576] [--explain] [--stop] [--echo] [-i] [FILE..]";

/// What stands in the help above the usage.
pub const ABOUT: &str =
    "A workbench for nets of interaction combinators: fires interactions, and takes them back in any causal order.
Reads a net and commands from files or standard input, and writes an answer to each command to standard output.";

/// What stands in the help below the options.
pub const LESSON: &str = "Input:
  The text of a net, a line ---, and then commands, one a line.
  A net is equations of terms: G(p,q) is a gamma, D(p,q) a delta, E an epsilon, each with its principal
  port at the place of the term. A name that occurs twice is a wire, one that occurs once a free end.
  The agents are named 0, 1, .. in the order of the text; the children of 0 and 1 are 0.0, 0.1 and so on.
  A # begins a comment.

Commands:
  net          print the net
  active       list the active pairs
  fire A B     fire the active pair of the agents A and B
  undo A B     undo the event of A and B, if no other depends on it
  why A B      tell the rank and the direct causes of an event
  unwind A B   undo an event and all that depends on it
  reduce N     fire up to N active pairs, each time the one with the least lead; in any order with several workers
  mark NAME    note which events stand
  back NAME    go back to the events of the mark
  absorb K     fire the events that the next K lines list, A B each, in whatever order they can be fired
  journal      list the events that stand
  undo-all     undo all events

With --explain also:
  agents, causes, history, marks, dependents A B, wire A P, step N, unstep N, rules, new, help, quit; help tells what they do. Each refusal is explained.

Example:
  G(x,a) = D(x,b);
  ---
  active
  fire 0 1
  why 0 1

  is answered by

  active 1
  0 1
  fired 0 1
  why 0 1 rank 0 causes 0

Refusals:
  1 to 9   the net text is wrong, mostly at a byte; without the line --- all of the input is net text
  21       one of the agents isn't there, or no wire joins their principal ports
  22, 23   names would get too long; there would be too many agents
  24       the history is full (undone calls stay in it): begin a new session
  25       there is no memory
  26       there is no such port or free name
  31, 32   no such event stands; the one that is named depends on it and must be undone first
  40       no command: write commands in small letters, and two different agents, as 0 or 0.2
  41, 42   there is no such mark; there are 256 marks
  51       the named event can't stand together with the standing and the listed events

Exit status:
  0    the session ended
  1    reading or writing failed
  2    the net was refused, and its first fault named
  3    there was no memory
  4    workers disagree with the history
  5    a command was refused, with --stop
  64   the command line is wrong";
