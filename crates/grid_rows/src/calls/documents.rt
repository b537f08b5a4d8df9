//! The plain form of a document, and where its grid begins.
use grid_text::{MAX_TEXT, judge, print, print_len};
use std::test::Fail;

const UNKNOT: &str = "grid 2\nO 1 0\nX 0 1\n";

// One space between words, the states of a chain ascending, each line ended, and no blank line.
#[test]
fn the_plain_form(rt: HostRuntime) -> Result<(), Fail> {
    let text = format!(in rt.alloc();
        "# a\n{UNKNOT} front\r\nchain\t10 \t01\n\nclass - \n\t# b\nborder 10\nturn up\nstab\t1 ne\nend\r\n \n# c"
    )?;
    if text.len() > MAX_TEXT {
        return Err(Fail::from("long"));
    }
    let Ok(judged) = judge(rt.alloc(), text.as_bytes()) else {
        return Err(Fail::from("refused"));
    };
    let Ok(plain) = print(rt.alloc(), &judged.script) else {
        return Err(Fail::from("out of memory"));
    };
    let wanted = format!(in rt.alloc();
        "{UNKNOT}front\nchain 01 10\nclass -\nborder 10\nturn up\nstab 1 ne\nend\n"
    )?;
    assert_eq!(rt; plain.as_slice(), wanted.as_bytes());
    assert_eq!(rt; print_len(&judged.script), wanted.len() as u128);
    Ok(())
}

// A picture has its top row first, and a head of version 2 is kept; each head begins at this line.
#[test]
fn heads(rt: HostRuntime) -> Result<(), Fail> {
    let rows = [
        (
            "# unknot\r\n\r\npicture 2\r\nOX\r\nX O\r\nend\r\n",
            "grid 2\nO 1 0\nX 0 1\nend\n",
            3,
        ),
        (
            "picture 3\nO . X\n# the middle\n\tXO.\n\n.XO\nend\n",
            "grid 3\nO 2 1 0\nX 1 0 2\nend\n",
            1,
        ),
        (
            "\n grid2\t2\nO 1 0\nX 0 1\nend",
            "grid2 2\nO 1 0\nX 0 1\nend\n",
            2,
        ),
    ];
    for (drawn, plain, grid_line) in rows {
        if drawn.len() > MAX_TEXT {
            return Err(Fail::from("long"));
        }
        let Ok(judged) = judge(rt.alloc(), drawn.as_bytes()) else {
            return Err(Fail::from("refused"));
        };
        let Ok(text) = print(rt.alloc(), &judged.script) else {
            return Err(Fail::from("out of memory"));
        };
        assert_eq!(rt; text.as_slice(), plain.as_bytes());
        assert_eq!(rt; judged.grid_line, grid_line);
    }
    Ok(())
}
