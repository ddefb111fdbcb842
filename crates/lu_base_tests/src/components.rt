//! Components that are written, and texts whose last line has no end. What else is read and refused
//! stands among the cases of lu_program_tests.

use lu_fixtures::ROWS;
use lu_lang::{LangFaultKind, read_component, write_component};
use lu_text::Fault;
use std::alloc::Global;
use std::process::Abort;
use std::test::Fail;

/// The text that is written of the component that this one is.
fn again(alloc: Global, text: &str) -> Result<String, Fail> {
    let component = read_component(alloc, text.as_bytes())?;
    Ok(write_component(alloc, &component)?)
}

/// Each component is written as the text beside it.
fn assert_written(rt: &(impl AllocGlobal + Abort), texts: &[(&str, &str)]) -> Result<(), Fail> {
    for (text, written) in texts {
        assert!(rt; again(rt.alloc(), text)?.as_str() == *written, "{text}");
    }
    Ok(())
}

const RETURNS: &str = "component c\nop f 0\nreturn 0\nend\n";

/// What reads the same is written the same.
#[test]
fn components_are_written(rt: HostRuntime) -> Result<(), Fail> {
    assert_written(
        &rt,
        &[
            (ROWS, ROWS),
            // Spellings of one component.
            (RETURNS, RETURNS),
            ("component c\nop f 0\nreturn 0\nend", RETURNS),
            (
                "\n# a comment\ncomponent c # another\n\n\top  f\t0\r\nreturn\r0\r\nend\r\n\n",
                RETURNS,
            ),
            (" component c#\nop f 0\nreturn 0#x\nend#", RETURNS),
            // `local` goes to the front, and stands only where it is not 0.
            (
                "component c\nword x 1 0\nlock m\nlocal 16\n",
                "component c\nlocal 16\nword x 1 0\nlock m\n",
            ),
            (
                "component c\nword x 1 0\nlock m\nlocal 0\n",
                "component c\nword x 1 0\nlock m\n",
            ),
            // Declarations go to the front, labels go by their places.
            (
                "component c # none\n\nop f 1\nstart: mul r1 r0 r0\nunused:\teq r7 r1 4294967295\n jz r7 out\njump start\nout: return 0\nend\nlock m\nword x 64 7\nop g 0\nawaitne x r0 1\nunlock m\nreturn r0\nend",
                "component c\nword x 64 7\nlock m\nop f 1\nL0: mul r1 r0 r0\neq r7 r1 4294967295\njz r7 L4\njump L0\nL4: return 0\nend\nop g 0\nawaitne x r0 1\nunlock m\nreturn r0\nend\n",
            ),
        ],
    )
}

#[test]
fn a_last_line_without_its_end_has_its_faults(rt: HostRuntime) {
    let texts: [(&[u8], LangFaultKind, usize); 3] = [
        (b"component c\n# \xc8", LangFaultKind::Byte, 2),
        (b"\n \t\r\n# none", LangFaultKind::Missing, 4),
        (b"component c\nop f 0\nreturn 0", LangFaultKind::Missing, 4),
    ];
    for (text, kind, line) in &texts {
        let fault = read_component(rt.alloc(), text).err();
        assert!(rt; fault == Some(Fault::At(*kind, *line)), "{kind:?}");
    }
}
