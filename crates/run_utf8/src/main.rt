// Replays recorded texts, framed as run_frames reads them, one line an answer: `ok`, or the place of the first ill-formed sequence.
#![tactic(auto)]

// Prints the line of a case, but for its end.
fn replay(rt: &impl Print, case: &[u8]) {
    match utf8::check(case) {
        Ok(()) => say(rt, b"ok"),
        Err(at) => say_number(rt, at as u64),
    }
}

fn main(rt: HostRuntime) {
    let mut room = [0u8; 65536];
    let mut input = rt.stdin();
    // A proved loop has to end, and nothing says that the input does; no run has this many cases.
    for _ in 0..u64::MAX {
        let Some(n) = run_frames::next(&mut input, &mut room) else {
            return;
        };
        replay(&rt, &room[..n]);
        if rt.write_all(b"\n").is_err() {
            return;
        }
    }
}

// ---- what other replay programs have too: a public function of a library would have to state its whole result, and no contract can say what is printed

// Writes text. A write that fails is passed over: the line's end then fails too, and ends the run.
fn say(rt: &impl Print, text: &[u8]) {
    let _ = rt.write_all(text);
}

fn say_number(rt: &impl Print, n: u64) {
    let _ = rt.print(n);
}
