//! What a run over an input in memory leaves, and with which status it ends.

ghost use Rattle.std.specs.Prelude.{◌≤◌};

use apsp_io::{Cutoff, MemorySink, MemorySource, OpenGate, Source};
use apsp_service::top;
use std::alloc::Global;
use std::marker::Sync;
use std::sync::Wait;
use std::test::Fail;
use std::thread::Threads;

/// A script of the lines with most kinds of words, and its replies.
const LINES: &str =
    "# roads\nvertices 3\r\n\tedge  0 1 5\nedge 1 2 6\n\ncut 0 1\ncut 0 1\nrow 0\nrow 1\ndist 0\nedge 1 1 2\nfoo\npath 0 3\nstar 0 1:2\nstar 0 out 1:x\nstats\n";

const REPLIES: &str =
    "row 0 0 none none\nrow 1 none 0 6\nline 10 error 4 at 3\nline 11 error 7 at 3\nline 12 error 3 at 1\nline 13 error 6 at 3\nline 14 error 4 at 3\nline 15 error 5 at 4\nstats updates 4 steps 4 paths 1 historical 1 formed 0 removed 0\n";

/// The status of a run over the input with these words, and what the sink holds then.
fn run_over<R: Threads + Wait + Sync>(
    rt: &R,
    alloc: Global,
    words: &[String],
    input: &[u8],
    piece: usize,
    takes: &[u64],
    gives: &[Cutoff],
) -> Result<(u8, Vec<u8>), Fail>
    requires { 1 ≤ piece }
{
    let mut source = MemorySource::new(input.to_vec(alloc)?, piece, takes.to_vec(alloc)?);
    let mut sink = MemorySink::new(alloc, gives.to_vec(alloc)?);
    let status = top(rt, alloc, words, &mut source, &mut sink, &OpenGate);
    Ok((status, sink.held().to_vec(alloc)?))
}

/// The words of a command line.
fn words_of(alloc: Global, line: &str) -> Result<Vec<String>, Fail> {
    let mut words = Vec::new(alloc);
    for word in line.split_whitespace() {
        words.push(String::from_str(alloc, word)?)?;
    }
    Ok(words)
}

#[test]
fn scripts_are_answered(rt: HostRuntime) -> Result<(), Fail> {
    for (input, text, status) in [
        (
            "vertices 3\nstar 0 out 1:4 2:9\nstar 1 out 2:3 in 0:4\ndist 0 2\n",
            "dist 0 2 7\n",
            0,
        ),
        (
            "vertices 3\nstar 1 in 0:4294967295 out 2:4294967295\ndist 0 2\nrow 0\nrow 2\n",
            "dist 0 2 8589934590\nrow 0 0 4294967295 8589934590\nrow 2 none none 0\n",
            0,
        ),
        ("", "", 0),
        ("dist 0 1\n", "line 1 error 1 at 1\n", 1),
        (
            "vertices 3\nstar 0 out 1:5 1:6\ndist 0 1\n",
            "line 2 error 8 at 5\ndist 0 1 none\n",
            1,
        ),
        (
            "vertices 2\nstar 0 out 1:0\nstar 0 out 1:4294967296\nstar 0 out 1:4294967295\ndist 0 1\n",
            "line 3 error 9 at 4\ndist 0 1 4294967295\n",
            1,
        ),
        ("vertices 2\nblock\n", "line 2 error 11 at 1\n", 1),
        (
            "vertices 3\nfoo\ndist 0 1",
            "line 2 error 3 at 1\ndist 0 1 none\n",
            1,
        ),
        (LINES, REPLIES, 1),
    ] {
        for piece in [1, 7, 4096] {
            let (ended, held) = run_over(&rt, rt.alloc(), &[], input.as_bytes(), piece, &[], &[])?;
            assert_eq!(rt; ended, status, "{input:?} in pieces of {piece}");
            assert_eq!(rt;
                held.as_slice(),
                text.as_bytes(),
                "{input:?} in pieces of {piece}"
            );
        }
    }
    Ok(())
}

#[test]
fn questions_are_answered(rt: HostRuntime) -> Result<(), Fail> {
    for (words, input, text) in [
        // The path 0 2 was least before the second update, and has been touched by none since.
        (
            "run",
            "vertices 3\nstar 0 out 1:4 2:9\nstar 1 out 2:3 in 0:4\nstats\nstar 1\nage 0 2\npath 0 2\nage 0 1\nstats\n",
            "stats updates 2 steps 2 paths 4 historical 4 formed 3 removed 1\nage 0 2 birth 1\npath 0 2 9 walk 0 2\nage 0 1 none\nstats updates 3 steps 3 paths 1 historical 1 formed 0 removed 3\n",
        ),
        // The second update is followed by a cleaning step, which adds the path 0 2 once more.
        (
            "run --smooth",
            "vertices 3\nstar 0 out 1:4 2:9\nstar 1 out 2:3 in 0:4\nstats\nage 0 2\npath 0 2\nrow 0\n",
            "stats updates 2 steps 3 paths 4 historical 3 formed 6 removed 4\nage 0 2 birth 3\npath 0 2 7 walk 0 1 2\nrow 0 0 4 7\n",
        ),
        // Of two ways of one weight and one number of edges the first in the order of lists is taken.
        (
            "run",
            "vertices 4\nstar 0 out 1:1 2:2\nstar 3 in 1:2 2:1\npath 0 3\nedge 0 3 3\npath 0 3\nage 0 1 3\ncut 0 3\npath 3 0\n",
            "path 0 3 3 walk 0 1 3\npath 0 3 3 walk 0 3\nage 0 1 3 birth 3\npath 3 0 none\n",
        ),
        (
            "run",
            "vertices 1\npath 0 0\nage 0\nage 0 0\nstats\n",
            "path 0 0 0 walk 0\nage 0 birth 0\nage 0 0 none\nstats updates 0 steps 0 paths 0 historical 0 formed 0 removed 0\n",
        ),
    ] {
        let words = words_of(rt.alloc(), words)?;
        let (status, held) = run_over(&rt, rt.alloc(), &words, input.as_bytes(), 64, &[], &[])?;
        assert_eq!(rt; status, 0, "{input:?}");
        assert_eq!(rt; held.as_slice(), text.as_bytes(), "{input:?}");
    }
    Ok(())
}

#[test]
fn blocks_are_run(rt: HostRuntime) -> Result<(), Fail> {
    for (words, input, text, status) in [
        // A question after all updates of its block has one reply, and so has one in a block without any.
        (
            "live",
            "vertices 3\nedge 0 1 5\nblock\nedge 1 2 6\nask 0 2 since 1\nask 2 0 since 1\nend\nstats\n",
            "at 2 path 0 2 11 walk 0 1 2\nat 2 path 2 0 none\nstats updates 2 steps 2 paths 3 historical 3 formed 3 removed 1\n",
            0,
        ),
        (
            "live --readers 1",
            "vertices 2\ncut 0 1\nblock\nask 1 1\nask 0 1\n# behind\nend\nblock\nend\ndist 0 1\n",
            "at 1 path 1 1 0 walk 1\nat 1 path 0 1 none\ndist 0 1 none\n",
            0,
        ),
        // An edge of a block is put to those that the block has so far.
        (
            "live --smooth",
            "vertices 3\nblock\nedge 0 1 1\nedge 0 2 1\ncut 0 1\nedge 0 1 2\nask 0 1 since 4\nend\nrow 0\n",
            "at 4 path 0 1 2 walk 0 1\nrow 0 0 2 1\n",
            0,
        ),
        // Refused lines of a block are replied to at once, and change nothing of it.
        (
            "live --slots 2 --readers 32",
            "block\nask 0 1\nvertices 2\nend\nblock\ndist 0 1\nblock\nask 0 1 since 1\nedge 0 1 4294967296\nedge 0 1 7\nask 0 1 since 1\nend\nend\n",
            "line 1 error 1 at 1\nline 2 error 3 at 1\nline 4 error 3 at 1\nline 6 error 13 at 1\nline 7 error 13 at 1\nline 8 error 14 at 5\nline 9 error 9 at 4\nat 1 path 0 1 7 walk 0 1\nline 13 error 3 at 1\n",
            1,
        ),
        // An open block at the end is not run.
        (
            "live",
            "vertices 2\nblock\nedge 0 1 5\nask 0 1",
            "line 5 error 13 at 0\n",
            1,
        ),
        ("live", "vertices 2\nblock\n", "line 3 error 13 at 0\n", 1),
        (
            "run",
            "ask 0 1\nend\nblock\n",
            "line 1 error 11 at 1\nline 2 error 11 at 1\nline 3 error 11 at 1\n",
            1,
        ),
    ] {
        let words = words_of(rt.alloc(), words)?;
        for piece in [1, 4096] {
            let (ended, held) = run_over(
                &rt,
                rt.alloc(),
                &words,
                input.as_bytes(),
                piece,
                &[],
                &[],
            )?;
            assert_eq!(rt; ended, status, "{input:?}");
            assert_eq!(rt; held.as_slice(), text.as_bytes(), "{input:?}");
        }
    }
    Ok(())
}

#[test]
fn questions_are_answered_in_order(rt: HostRuntime) -> Result<(), Fail> {
    let alloc = rt.alloc();
    let words = words_of(alloc, "live --readers 3")?;
    let input =
        b"vertices 2\nblock\nedge 0 1 4\nask 0 0\nask 0 1 since 1\nask 1 1 since 1\nask 0 0\nask 1 0 since 1\nend\n";
    let (status, held) = run_over(&rt, alloc, &words, input, 9, &[], &[])?;
    assert_eq!(rt; status, 0);
    let mut lines = held.split(|b| *b == b'\n');
    for wanted in [
        b"path 0 0 0 walk 0".as_slice(),
        b"path 0 1 4 walk 0 1".as_slice(),
        b"path 1 1 0 walk 1".as_slice(),
        b"path 0 0 0 walk 0".as_slice(),
        b"path 1 0 none".as_slice(),
    ] {
        let line = lines.next().unwrap_or(&[]);
        assert!(rt; line.starts_with(b"at ") && line.ends_with(wanted));
    }
    Ok(())
}

#[test]
fn a_stop_leaves_replies_of_whole_lines(rt: HostRuntime) -> Result<(), Fail> {
    let words = words_of(rt.alloc(), "live")?;
    // The source fails in a block: it has no reply.
    let input = b"vertices 2\nblock\nedge 0 1 4\nfoo\nask 0 1\n";
    let (status, held) = run_over(&rt, rt.alloc(), &words, input, 64, &[2], &[])?;
    assert_eq!(rt; status, 3);
    assert_eq!(rt; held.as_slice(), b"line 4 error 3 at 1\n".as_slice());
    // The sink fails in the reply to the open block.
    let cutoff = Cutoff { call: 2, kept: 5 };
    let (status, held) = run_over(&rt, rt.alloc(), &words, input, 64, &[], &[cutoff])?;
    assert_eq!(rt; status, 4);
    assert_eq!(rt; held.as_slice(), b"line 4 error 3 at 1\nline ".as_slice());
    Ok(())
}

#[test]
fn long_lines_are_refused(rt: HostRuntime) -> Result<(), Fail> {
    let alloc = rt.alloc();
    let mut input = b"vertices 2\n".to_vec(alloc)?;
    input.extend_from_slice(&vec![in alloc; b'x'; 65537]?)?;
    input.extend_from_slice(b"\n")?;
    input.extend_from_slice(&vec![in alloc; b'x'; 65536]?)?;
    input.extend_from_slice(b"\ndist 0 1")?;
    let (status, held) = run_over(&rt, rt.alloc(), &[], &input, 7, &[], &[])?;
    assert_eq!(rt; status, 1);
    assert_eq!(rt;
        held.as_slice(),
        b"line 2 error 10 at 0\nline 3 error 3 at 1\ndist 0 1 none\n".as_slice()
    );
    Ok(())
}

#[test]
fn a_failing_source_ends_the_run(rt: HostRuntime) -> Result<(), Fail> {
    let input = b"vertices 2\ndist 0 1\ndist 1 0\ndist 0 0\ndist 1 1\n";
    let (status, held) = run_over(&rt, rt.alloc(), &[], input, 20, &[3], &[])?;
    assert_eq!(rt; status, 3);
    assert_eq!(rt;
        held.as_slice(),
        b"dist 0 1 none\ndist 1 0 none\ndist 0 0 0\n".as_slice()
    );

    // Cut at each byte, the replies are those of the whole lines before it.
    let lines = LINES.as_bytes();
    for cut in 0..lines.len() {
        let (status, held) = run_over(&rt, rt.alloc(), &[], lines, 1, &[cut as u64 + 1], &[])?;
        let (_, whole) = run_over(
            &rt,
            rt.alloc(),
            &[],
            whole_lines(&lines[..cut]),
            9,
            &[],
            &[],
        )?;
        assert_eq!(rt; status, 3, "cut at {cut}");
        assert_eq!(rt; held.as_slice(), whole.as_slice(), "cut at {cut}");
    }
    Ok(())
}

/// The front of the bytes up to the last newline.
fn whole_lines(bytes: &[u8]) -> &[u8] {
    match bytes.iter().rposition(|b| *b == b'\n') {
        Some(place) => bytes.get(..place + 1).unwrap_or(bytes),
        None => &[],
    }
}

#[test]
fn a_failing_sink_ends_the_run(rt: HostRuntime) -> Result<(), Fail> {
    let cutoff = Cutoff { call: 2, kept: 4 };
    let (status, held) = run_over(
        &rt,
        rt.alloc(),
        &[],
        b"vertices 2\ndist 0 1\ndist 1 0\n",
        4096,
        &[],
        &[cutoff],
    )?;
    assert_eq!(rt; status, 4);
    assert_eq!(rt; held.as_slice(), b"dist 0 1 none\ndist".as_slice());
    for call in 1..10 {
        let (status, held) = run_over(
            &rt,
            rt.alloc(),
            &[],
            LINES.as_bytes(),
            7,
            &[],
            &[Cutoff { call, kept: 3 }],
        )?;
        assert_eq!(rt; status, 4, "give {call}");
        assert!(rt; REPLIES.as_bytes().starts_with(&held), "give {call}");
    }
    Ok(())
}

/// The sink fails at each give in turn, and then holds exactly the lines before it. A body that gives two lines
/// at once, answers of a block or lines of a certificate, meets every clause; this test alone refuses it.
#[test]
fn each_line_is_given_by_itself(rt: HostRuntime) -> Result<(), Fail> {
    for (words, input, text, lines) in [
        (
            "run",
            "vertices 2\nedge 0 1 5\nfoo\ncert\nrow 0\n",
            "line 3 error 3 at 1\napsp certificate 2\nnumber 1\nvertices 2\nedges 1\n0 1:5\npairs 1\n0 1:5:1:1\nend\nrow 0 0 5\n",
            10,
        ),
        (
            "live",
            "vertices 2\nblock\nedge 0 1 4\nask 0 1 since 1\nask 1 1 since 1\nask 1 0 since 1\nend\nblock\n",
            "at 1 path 0 1 4 walk 0 1\nat 1 path 1 1 0 walk 1\nat 1 path 1 0 none\nline 9 error 13 at 0\n",
            4,
        ),
    ] {
        let words = words_of(rt.alloc(), words)?;
        for call in 1..=lines {
            let (status, held) = run_over(
                &rt,
                rt.alloc(),
                &words,
                input.as_bytes(),
                4096,
                &[],
                &[Cutoff { call, kept: 0 }],
            )?;
            assert_eq!(rt; status, 4, "give {call}");
            assert!(rt; text.as_bytes().starts_with(&held), "give {call}");
            assert_eq!(rt;
                held.split(|b| *b == b'\n').count() as u64,
                call,
                "give {call}"
            );
        }
    }
    Ok(())
}

/// The sink fails at the first reply, and then the second question is still in the source. A body
/// that reads all its input first and answers afterwards meets every clause; this test alone refuses
/// it.
#[test]
fn lines_are_answered_as_they_become_whole(rt: HostRuntime) -> Result<(), Fail> {
    let alloc = rt.alloc();
    let input = b"vertices 2\ndist 0 1\ndist 1 0\n".to_vec(alloc)?;
    let mut source = MemorySource::new(input, 20, Vec::new(alloc));
    let mut sink = MemorySink::new(alloc, vec![in alloc; Cutoff { call: 1, kept: 0 }]?);
    let status = top(&rt, alloc, &[], &mut source, &mut sink, &OpenGate);
    assert_eq!(rt; status, 4);
    let mut rest = [0; 20];
    assert_eq!(rt; source.take(&mut rest), Ok(9));
    assert_eq!(rt; &rest[..9], b"dist 1 0\n".as_slice());
    Ok(())
}

#[test]
fn other_words_are_refused(rt: HostRuntime) -> Result<(), Fail> {
    let alloc = rt.alloc();
    for (line, status) in [
        ("run", 1),
        ("run --smooth", 1),
        ("", 1),
        ("run --workers 1", 1),
        ("run --workers 64", 1),
        ("run --smooth --workers 4", 1),
        ("run --workers 4 --smooth", 1),
        ("run --workers 0", 2),
        ("run --workers 65", 2),
        ("run --workers 04", 2),
        ("run --workers +4", 2),
        ("run --workers 4x", 2),
        ("run --workers 00000000004", 2),
        ("run --workers=4", 2),
        ("run --workers", 2),
        ("run --workers --smooth", 2),
        ("run --workers 4 --workers 4", 2),
        ("run --workers 2 --smooth --workers 4", 2),
        ("run --smooth --smooth", 2),
        ("run --readers 2", 2),
        ("run --slots 4", 2),
        ("run 4", 2),
        ("load 2 1", 0),
        ("load 2 0 --workers 8", 0),
        ("load 1 7", 2),
        ("load 129 7", 2),
        ("load 64", 2),
        ("load 02 7", 2),
        ("load 2 07", 2),
        ("load 2 12345678901", 2),
        ("load 2 1 --smooth", 2),
        ("load --workers 4 2 1", 2),
        ("walk", 2),
        ("check", 1),
        ("check --smooth", 2),
    ] {
        let words = words_of(alloc, line)?;
        let input = b"dist 0 1\n".to_vec(alloc)?;
        let mut source = MemorySource::new(input, 1, Vec::new(alloc));
        let mut sink = MemorySink::new(alloc, Vec::new(alloc));
        let ended = top(&rt, alloc, &words, &mut source, &mut sink, &OpenGate);
        assert_eq!(rt; ended, status, "{line}");
        assert_eq!(rt; sink.held().is_empty(), status == 2, "{line}");
    }
    Ok(())
}

/// The line of a small generated input, which leaves the source as it was, and a front of it.
#[test]
fn generated_input_has_one_line(rt: HostRuntime) -> Result<(), Fail> {
    let alloc = rt.alloc();
    let words = words_of(alloc, "load 2 1")?;
    let line =
        "load 2 1 updates 4 pairs 2 sum 1791 paths 2 historical 2 certificate yes\n".as_bytes();
    let mut source = MemorySource::new(b"dist 0 1\n".to_vec(alloc)?, 9, vec![in alloc; 1]?);
    let mut sink = MemorySink::new(alloc, Vec::new(alloc));
    assert_eq!(rt;
        top(&rt, alloc, &words, &mut source, &mut sink, &OpenGate),
        0
    );
    assert_eq!(rt; sink.held(), line);
    let mut rest = [0; 20];
    assert_eq!(rt; source.take(&mut rest).is_err(), true);
    assert_eq!(rt; source.take(&mut rest), Ok(9));

    let failing = vec![in alloc; Cutoff { call: 1, kept: 11 }]?;
    let mut sink = MemorySink::new(alloc, failing);
    assert_eq!(rt;
        top(&rt, alloc, &words, &mut source, &mut sink, &OpenGate),
        4
    );
    assert_eq!(rt; sink.held(), &line[..11]);
    Ok(())
}

/// The certificate of a network with two ways of one weight.
const CERTIFICATE: &str =
    "apsp certificate 2\nnumber 2\nvertices 4\nedges 4\n0 1:1 2:2\n1 3:2\n2 3:1\npairs 5\n0 1:1:1:1 2:2:1:2 3:3:2:1\n1 3:2:1:3\n2 3:1:1:3\nend\n";

#[test]
fn certificates_are_given_and_checked(rt: HostRuntime) -> Result<(), Fail> {
    let alloc = rt.alloc();
    let script = b"vertices 4\nstar 0 out 1:1 2:2\nstar 3 in 1:2 2:1\ncert\n";
    let (status, held) = run_over(&rt, alloc, &[], script, 7, &[], &[])?;
    assert_eq!(rt; status, 0);
    assert_eq!(rt; held.as_slice(), CERTIFICATE.as_bytes());
    let cutoff = Cutoff { call: 4, kept: 3 };
    let (status, held) = run_over(&rt, alloc, &[], script, 7, &[], &[cutoff])?;
    assert_eq!(rt; status, 4);
    assert_eq!(rt;
        held.as_slice(),
        b"apsp certificate 2\nnumber 2\nvertices 4\nedg".as_slice()
    );

    let words = words_of(alloc, "check")?;
    for (input, text, status) in [
        (CERTIFICATE, "certificate yes 2\n", 0),
        (
            "apsp certificate 1\nnumber 1\nvertices 2\nedges 1\n0 1 7\npairs 0\nend\n",
            "certificate no 0 1 missing\n",
            1,
        ),
        (
            "apsp certificate 1\nnumber 1\nvertices 2\nedges 1\n0 1 4294967296\n",
            "certificate error 3 at 5\n",
            1,
        ),
        ("", "certificate error 1 at 1\n", 1),
    ] {
        let (ended, held) = run_over(&rt, alloc, &words, input.as_bytes(), 7, &[], &[])?;
        assert_eq!(rt; ended, status, "{input:?}");
        assert_eq!(rt; held.as_slice(), text.as_bytes(), "{input:?}");
    }
    let (status, held) = run_over(&rt, alloc, &words, CERTIFICATE.as_bytes(), 20, &[3], &[])?;
    assert_eq!(rt; status, 3);
    assert!(rt; held.is_empty());
    let cutoff = Cutoff { call: 1, kept: 5 };
    let (status, held) = run_over(
        &rt,
        alloc,
        &words,
        CERTIFICATE.as_bytes(),
        20,
        &[],
        &[cutoff],
    )?;
    assert_eq!(rt; status, 4);
    assert_eq!(rt; held.as_slice(), b"certi".as_slice());
    Ok(())
}
