use crate::program::running::{Run, runs};
use std::test::Fail;

const ONE_PAIR: &[u8] = b"G(x,a) = D(x,b);\n---\nactive\nfire 0 1\nwhy 0 1\nreduce 3\n";

const ONE_PAIR_SAID: &[u8] =
    b"active 1\n0 1\nfired 0 1\nwhy 0 1 rank 0 causes 0\nreduced 3 budget\n";

const REDUCED: &[u8] = b"G(x,a) = D(x,b);\n---\nreduce 3\n";

const REFUSED: &[u8] = b"G(x,a) = D(x,b);\n---\nfire 0 1\nfire 0 1\nundo 0 1\n";

const REFUSED_SAID: &[u8] = b"fired 0 1\nrefused 21 not active\nundone 0 1\n";

const WHY_REFUSED: &[u8] =
    b"line 4: one of the agents isn't there, or no wire joins their principal ports; active lists the pairs that can fire\n";

/// Sessions without questions.
const PLAIN: [(&str, Run<'_>); 13] = [
    (
        "no options",
        Run {
            words: &["icbench"],
            input: ONE_PAIR,
            status: 0,
            output: ONE_PAIR_SAID,
            errors: b"",
        },
    ),
    (
        "the most workers",
        Run {
            words: &["icbench", "--workers", "64"],
            input: ONE_PAIR,
            status: 0,
            output: ONE_PAIR_SAID,
            errors: b"",
        },
    ),
    (
        "a budget of one",
        Run {
            words: &["icbench", "--budget", "1"],
            input: REDUCED,
            status: 0,
            output: b"reduced 1 budget\n",
            errors: b"",
        },
    ),
    (
        "a budget of none",
        Run {
            words: &["icbench", "--budget=0"],
            input: REDUCED,
            status: 0,
            output: b"reduced 0 budget\n",
            errors: b"",
        },
    ),
    (
        "the largest budget",
        Run {
            words: &["icbench", "--budget=1048576", "--workers=1"],
            input: REDUCED,
            status: 0,
            output: b"reduced 3 budget\n",
            errors: b"",
        },
    ),
    (
        "a net that is refused",
        Run {
            words: &["icbench"],
            input: b"G(a,b) = !;",
            status: 2,
            output: b"refused 2 at 9\n",
            errors: b"",
        },
    ),
    (
        "a refusal",
        Run {
            words: &["icbench", "--workers=1"],
            input: REFUSED,
            status: 0,
            output: REFUSED_SAID,
            errors: b"",
        },
    ),
    (
        "a refusal that stops",
        Run {
            words: &["icbench", "--stop"],
            input: REFUSED,
            status: 5,
            output: b"fired 0 1\nrefused 21 not active\n",
            errors: b"",
        },
    ),
    (
        "nothing that stops",
        Run {
            words: &["icbench", "--stop"],
            input: b"E = E;\n---\nreduce 0\n",
            status: 0,
            output: b"reduced 0 budget\n",
            errors: b"",
        },
    ),
    (
        "a refused net that stops",
        Run {
            words: &["icbench", "--stop"],
            input: b"G(a,b) = !;",
            status: 2,
            output: b"refused 2 at 9\n",
            errors: b"",
        },
    ),
    (
        "a question",
        Run {
            words: &["icbench"],
            input: b"---\nagents\n",
            status: 0,
            output: b"refused 40 command\n",
            errors: b"",
        },
    ),
    (
        "the standard input as a file",
        Run {
            words: &["icbench", "-"],
            input: b"E = E;\n---\nfire 0 1\n",
            status: 0,
            output: b"fired 0 1\n",
            errors: b"",
        },
    ),
    (
        "a file that is missing",
        Run {
            words: &["icbench", "-", "missing.net"],
            input: b"E = E;\n---\nfire 0 1\n",
            status: 1,
            output: b"fired 0 1\n",
            errors: b"icbench: missing.net: cannot be read\n",
        },
    ),
];

const ECHOED: &[u8] = b"E = E;\n---\n# One pair.\nfire 0 1\nquit\n";

const ECHOED_SAID: &[u8] = b"> fire 0 1\nfired 0 1\n> quit\nrefused 40 command\n";

const ASKED: &[u8] = b"G(x,a) = D(x,b);\n---\nfire 0 1\nquit\nundo 0 1\n";

const PROMPTS: &[u8] =
    b"net> net> net read: 2 agents, 1 active pair; help lists the commands\nicbench> icbench> ";

/// Sessions that echo, explain themselves or ask for lines.
const EXPLAINED: [(&str, Run<'_>); 9] = [
    (
        "no echo",
        Run {
            words: &["icbench", "--workers=1"],
            input: ECHOED,
            status: 0,
            output: b"fired 0 1\nrefused 40 command\n",
            errors: b"",
        },
    ),
    (
        "an echo",
        Run {
            words: &["icbench", "--echo"],
            input: ECHOED,
            status: 0,
            output: ECHOED_SAID,
            errors: b"",
        },
    ),
    (
        "an echo that stops",
        Run {
            words: &["icbench", "--stop", "--echo"],
            input: ECHOED,
            status: 5,
            output: ECHOED_SAID,
            errors: b"",
        },
    ),
    (
        "an echo at a terminal",
        Run {
            words: &["icbench", "-i", "--echo"],
            input: ECHOED,
            status: 0,
            output: b"> fire 0 1\nfired 0 1\n",
            errors: b"net> net> net read: 2 agents, 1 active pair; help lists the commands\nicbench> icbench> icbench> ",
        },
    ),
    (
        "a refusal that is explained",
        Run {
            words: &["icbench", "--explain"],
            input: REFUSED,
            status: 0,
            output: REFUSED_SAID,
            errors: WHY_REFUSED,
        },
    ),
    (
        "a refusal that is explained and stops",
        Run {
            words: &["icbench", "--explain", "--stop"],
            input: REFUSED,
            status: 5,
            output: b"fired 0 1\nrefused 21 not active\n",
            errors: WHY_REFUSED,
        },
    ),
    (
        "questions",
        Run {
            words: &["icbench", "--explain"],
            input: b"G(x,a) = D(x,b);\n---\nagents\nstep\ndependents 1 0\nhistory\nfire 0 1\nmark m\nmarks\nNET\nundo 0 0\n",
            status: 0,
            output: b"agents 2\n0 G(_0,a) = _1;\n1 D(_0,b) = _1;\nfired 0 1\ndependents 0 1 events 1\n0 1\nhistory 1\n0 fire 0 1: fired\nrefused 21 not active\nmarked m 1\nmarks 1\nm 1\nrefused 40 command\nrefused 40 command\n",
            errors: b"line 7: one of the agents isn't there, or no wire joins their principal ports; active lists the pairs that can fire\nline 10: no command begins with NET; help lists all\nline 11: the two agents must be different; both are 0\n",
        },
    ),
    (
        "a terminal",
        Run {
            words: &["icbench", "-i"],
            input: ASKED,
            status: 0,
            output: b"fired 0 1\n",
            errors: PROMPTS,
        },
    ),
    (
        "a terminal by the long word",
        Run {
            words: &["icbench", "--interactive"],
            input: ASKED,
            status: 0,
            output: b"fired 0 1\n",
            errors: PROMPTS,
        },
    ),
];

#[test]
fn sessions_run_as_their_options_say(rt: HostRuntime) {
    for (name, run) in PLAIN {
        assert!(rt; runs(&rt, rt.alloc(), run), "{name}");
    }
    for (name, run) in EXPLAINED {
        assert!(rt; runs(&rt, rt.alloc(), run), "{name}");
    }
}

#[test]
fn a_line_too_long_is_told_of_after_a_wrong_list(rt: HostRuntime) -> Result<(), Fail> {
    let mut input = Vec::from_slice(rt.alloc(), b"---\nabsorb 1\nx\n")?;
    for _byte in 0..131_074 {
        input.push(b'a')?;
    }
    let run = Run {
        words: &["icbench", "--explain"],
        input: &input,
        status: 0,
        output: b"refused 40 command\nrefused 40 command\n",
        errors: b"line 2: line 3 lists no event; expected there: the names of two different agents, such as 0 and 0.2, or a line of a journal\nline 4: a line has at most 131072 bytes\n",
    };
    assert!(rt; runs(&rt, rt.alloc(), run));
    Ok(())
}
