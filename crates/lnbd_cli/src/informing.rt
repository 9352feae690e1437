//! nbdinfo: a server is asked, what it tells is printed, and how such a run ends (nbdinfo(1)).

ghost use Rattle.std.specs.Prelude.{◌≡◌, Err, OnOk, true};
ghost use Rattle.lnbd_link.specs.Count.{Rises, patience};
ghost use Rattle.lnbd_cli.specs.Ends.{status_of};
ghost use Rattle.lnbd_cli.specs.Informs.{EndsAs, InfoEnds, IsPrinted, is_info_status};
ghost use Rattle.lnbd_cli.specs.declared.ending.Fault.TheVariants as fault;

use crate::counts::look;
use crate::ending::{End, Fault};
use crate::hearing::{News, Question, hear};
use lnbd_link::{Sink, Wires, put};
use std::alloc::Global;

/// The option by which an export is asked for (NBD protocol, "NBD_OPT_INFO").
const OPT_INFO: u32 = 6;

/// The end of a run whose text is printed.
fn ended(answer: Result<bool, u32>) -> End
    ensures { EndsAs answer result }
{
    match answer {
        Ok(holds) => Ok(holds),
        Err(code) => Err(Fault::Told {
            option: Some(OPT_INFO),
            code,
        }),
    }
}

/// Prints what was heard.
fn tell<O: Sink>(news: News, out: &mut O) -> End
    ensures tells { IsPrinted result news.text.items news.end (O.taken out.old) (O.taken out.new) }
    ensures output { result ≡ Err fault.Output → Rises 1 (O.faults out.old) (O.faults out.new) }
    ensures output_well { OnOk result (O.faults out.new ≡ O.faults out.old) }
{
    match put(out, &news.text) {
        Ok(()) => ended(news.end),
        Err(_) => Err(Fault::Output),
    }
}

/// Asks the server, and prints what is heard.
pub(crate) fn inform<W: Wires, O: Sink>(
    alloc: Global,
    question: Question,
    wires: &mut W,
    out: &mut O,
) -> End
    ensures ends { InfoEnds question (W.told wires.old) (W.told wires.new) (O.taken out.old) (O.taken out.new) (wires.new ≡ wires.old) (out.new ≡ out.old) result }
    ensures known { is_info_status (status_of result) ≡ true }
    ensures link { result ≡ Err fault.Link → Rises 1 (W.faults wires.old) (W.faults wires.new) }
    ensures silent { result ≡ Err fault.Silent → Rises patience (W.idles wires.old) (W.idles wires.new) }
    ensures output { result ≡ Err fault.Output → Rises 1 (O.faults out.old) (O.faults out.new) }
    ensures well { OnOk result (¬ Rises 1 (W.faults wires.old) (W.faults wires.new)) }
    ensures patient { OnOk result (¬ Rises patience (W.idles wires.old) (W.idles wires.new)) }
    ensures output_well { OnOk result (O.faults out.new ≡ O.faults out.old) }
{
    let faults = wires.faults();
    let idles = wires.idles();
    let news = match hear(alloc, question, wires) {
        Ok(news) => news,
        Err(fault) => return Err(fault),
    };
    match look(faults, idles, wires) {
        Ok(()) => tell(news, out),
        Err(fault) => Err(fault),
    }
}
