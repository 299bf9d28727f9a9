// The edges of the items' ranges, the whole conflict table, and what asks for memory.
use items::{Layer, Mode, Reason, Refusal, displayed_line, line_of};
use kinds::{Article, FieldSet, Span};
use packed::{LogError, Reader, read_all};
use std::test::Fail;

// Whether the item's own layer refuses, for the reason that is printed as 7.
fn is_refused<T: Drop>(made: Result<T, Refusal>) -> bool {
    made.is_err_and(|refusal| refusal.reason.number() == 7 && refusal.layer == Layer::Item)
}

#[test]
fn article_edges(rt: HostRuntime) {
    assert!(rt; Article::new(0).is_ok());
    assert!(rt; Article::new(16383).is_ok());
    assert!(rt; is_refused(Article::new(16384)));
}

#[test]
fn span_edges(rt: HostRuntime) {
    assert!(rt; Span::new(0, 1).is_ok());
    assert!(rt; is_refused(Span::new(0, 0)));
    assert!(rt; Span::new(0, 64).is_ok());
    assert!(rt; is_refused(Span::new(0, 65)));
    assert!(rt; Span::new(1048575, 1).is_ok());
    assert!(rt; is_refused(Span::new(1048575, 2)));
    assert!(rt; Span::new(1048512, 64).is_ok());
    assert!(rt; is_refused(Span::new(1048513, 64)));
}

#[test]
fn field_set_edges(rt: HostRuntime) {
    assert!(rt; FieldSet::new(0, 1).is_ok());
    assert!(rt; is_refused(FieldSet::new(0, 0)));
    assert!(rt; FieldSet::new(4095, 63).is_ok());
    assert!(rt; is_refused(FieldSet::new(4096, 63)));
    assert!(rt; is_refused(FieldSet::new(4095, 64)));
}

// The conflicts of a mode with look, set, add and raise.
fn row_of(mode: Mode) -> [bool; 4] {
    [
        mode.conflicts(Mode::Look),
        mode.conflicts(Mode::Set),
        mode.conflicts(Mode::Add),
        mode.conflicts(Mode::Raise),
    ]
}

#[test]
fn conflict_table(rt: HostRuntime) {
    assert_eq!(rt; row_of(Mode::Look), [false, true, true, true]);
    assert_eq!(rt; row_of(Mode::Set), [true, true, true, true]);
    assert_eq!(rt; row_of(Mode::Add), [true, true, false, true]);
    assert_eq!(rt; row_of(Mode::Raise), [true, true, true, false]);
}

// A log of three entries is read whole, and memory does not run out.
#[test]
fn log_read_to_its_end(rt: HostRuntime) -> Result<(), Fail> {
    let bytes = [0x12, 0x00, 0x20, 0xA0, 0x00, 0x15, 0x00];
    match read_all::<Article, Reader<Article>>(rt.alloc(), &bytes) {
        Ok(log) => {
            assert_eq!(rt; log.bays, 1);
            assert_eq!(rt; log.entries.len(), 3);
            Ok(())
        }
        Err(LogError::Refused(_)) => Err(Fail::new("the log was refused")),
        Err(LogError::OutOfMemory) => Err(Fail::new("memory ran out")),
    }
}

#[test]
fn lines_in_memory_of_their_own(rt: HostRuntime) -> Result<(), Fail> {
    let refusal = Layer::Log.refusal(Reason::EntryCut, 3);
    let (Ok(displayed), Ok(told)) = (
        displayed_line(rt.alloc(), &refusal),
        line_of(rt.alloc(), b"REFUSED log", 13, &[3]),
    ) else {
        return Err(Fail::new("memory ran out"));
    };
    assert!(rt; displayed.as_slice() == b"REFUSED log 13 3\n".as_slice());
    assert!(rt; told.as_slice() == displayed.as_slice());
    Ok(())
}
