// Replays recorded texts, framed as run_frames reads them, one line an answer: `ok`, or `6` or `7` and the place of the fault or the bracket.
#![tactic(auto)]

use literal_bytes::Parsed;

// Prints the line of a case, but for its end.
fn replay(rt: &impl Print, case: &[u8]) {
    match literal::literal(case) {
        Parsed::Value(_) => say(rt, b"ok"),
        Parsed::Fault(at) => {
            say(rt, b"6 ");
            say_number(rt, at as u64)
        }
        Parsed::Deep(at) => {
            say(rt, b"7 ");
            say_number(rt, at as u64)
        }
    }
}

fn main(rt: HostRuntime) {
    let mut room = [0u8; 65536];
    let mut input = rt.stdin();
    // A proved loop has to end, and nothing says that the input does; no run has this many cases.
    for _ in 0..u64::MAX {
        let Some(n) = run_frames::next(&mut input, &mut room) else {
            return;
        };
        replay(&rt, &room[..n]);
        if rt.write_all(b"\n").is_err() {
            return;
        }
    }
}

// ---- what other replay programs have too: a public function of a library would have to state its whole result, and no contract can say what is printed

// Writes text. A write that fails is passed over: the line's end then fails too, and ends the run.
fn say(rt: &impl Print, text: &[u8]) {
    let _ = rt.write_all(text);
}

fn say_number(rt: &impl Print, n: u64) {
    let _ = rt.print(n);
}
