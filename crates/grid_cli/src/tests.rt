//! The words of the program, and its usage.
use crate::answers::answer;
use grid_ports::{MemSink, MemSource};
use std::test::Fail;

#[test]
fn other_words_are_told_the_usage(rt: HostRuntime) -> Result<(), Fail> {
    let alloc = rt.alloc();
    // The word, the exit status, what is written, and what the sink for errors is told.
    for (word, status, report, usage) in [
        ("run", 0, "front tb -1 rot 0 components 1\n", ""),
        (
            "walk",
            1,
            "",
            "usage: gridhom run | cert | check | make --size N --seed K | compare\n",
        ),
    ] {
        let mut words = Vec::new(alloc);
        words.push(String::from_str(alloc, word)?)?;
        let text = Vec::from_slice(alloc, b"grid 2\nO 1 0\nX 0 1\nfront\nend\n")?;
        let mut source = MemSource::new(text, 9, Vec::new(alloc));
        let mut sink = MemSink::new(alloc, 99, 9, Vec::new(alloc))?;
        let mut errors = MemSink::new(alloc, 99, 9, Vec::new(alloc))?;
        let ended = answer(alloc, &words, &mut source, &mut sink, &mut errors);
        assert_eq!(rt; ended.code(), status, "the status of {word}");
        assert_eq!(rt; sink.written(), report.as_bytes(), "what {word} writes");
        assert_eq!(rt; errors.written(), usage.as_bytes(), "what {word} is told");
    }
    Ok(())
}
