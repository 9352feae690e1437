//! Scripts: as many commands as there may be, and one more.

use crate::report::Report;
use crate::session::{Session, Texts, count, play_texts};
use std::alloc::Global;
use std::test::Fail;

/// How many commands may be issued and not retired.
const MAX_COMMANDS: u32 = 1024;

/// What comes before the reads.
const BEFORE: &str = "connect tcp localhost 10809→connected
settle→settled";

/// What comes behind as many reads as there may be, before the reply to the first is read.
const REFUSED: &str = "pread 1 0→refused too-many 1024
write→moved 28";

/// What comes behind that reply.
const RETIRED: &str = "done 1→done 1 ab*1
pread 1 0→cookie 1025
→opened 1026 freed 1026";

/// Which of the peer's bytes the reply is.
const REPLY: usize = 2;

/// All but its texts.
const MANY: Session<'static> = Session {
    names: "",
    base: "",
    own: "= a command that is retired makes room for another
<1 HELLO
<1 GO
<1 67446698 00000000 0000000000000001 ab
.output-room 16384
> HANDSHAKE
> 25609513 0000 0000 0000000000000001 0000000000000000 00000001",
};

/// Each read, and its cookie.
fn push_reads(alloc: Global, texts: &mut Texts) -> Result<(), Fail> {
    for number in 0..MAX_COMMANDS {
        let cookie = number.saturating_add(1);
        let answer = format!(in alloc; "cookie {cookie}")?;
        texts.push("pread 1 0", answer.as_str())?;
    }
    Ok(())
}

/// The texts, where the peer's bytes are cut behind so many.
fn texts(alloc: Global, cut: usize) -> Result<Texts, Fail> {
    let mut texts = Texts::new(alloc);
    texts.push_talk(BEFORE)?;
    push_reads(alloc, &mut texts)?;
    texts.push_talk(REFUSED)?;
    texts.push_read(alloc, &MANY, REPLY, cut, "moved 17")?;
    texts.push_talk(RETIRED)?;
    Ok(texts)
}

// Whole (cut behind none), and cut at each byte.
#[test]
fn as_many_commands_as_there_may_be(rt: HostRuntime) -> Result<(), Fail> {
    let alloc = rt.alloc();
    let mut report = Report::new(alloc);
    for cut in 0..count(alloc, &MANY)? {
        play_texts(alloc, &mut report, &MANY, texts(alloc, cut)?, cut)?;
    }
    report.settle(&rt);
    Ok(())
}
