//! Negotiation, one turn at a time.

ghost use Rattle.std.specs.Prelude.{◌≡◌, ◌++◌, ◌≤◌, ◌<◌, [], None, Some, if◌then◌else◌, OnOk, OnErr, length, true, not, ◌&&◌, ◌||◌, ◌==◌};
ghost use Rattle.std.specs.List.{concat};
ghost use Rattle.std.specs.Option.{option_copied};
ghost use Rattle.lnbd_records.specs.Limits.{max_contexts};
ghost use Rattle.lnbd_records.specs.Options.{opt_extended_headers, opt_list, opt_set_meta_context};
ghost use Rattle.lnbd_records.specs.Requests.{is_info};
ghost use Rattle.lnbd_history.specs.declared.kinds.Phase.TheVariants.{Greeting, AskedByName, OptMode};
ghost use Rattle.lnbd_history.specs.Events as setting;
ghost use Rattle.lnbd_history.specs.Agreement.{Turn, Hello, Replied, Set, Opted, export_of, opt_answer_of, after_answer, settles_replies};
ghost use Rattle.lnbd_history.specs.Arrivals.{OptionReply, Sight, is_asked, reply_verdict};
ghost use Rattle.lnbd_history.specs.Outgoing.{request_at};
ghost use Rattle.lnbd_history.specs.Talk.{Talk, taking, pending_with, answered};
ghost use Rattle.lnbd_negotiate.specs.Told.{told_of, end};
ghost use Rattle.lnbd_negotiate.specs.Reading.{broken_by};
ghost use Rattle.lnbd_negotiate.specs.Means.{begun_with, Takes, Stays, Greets, IsSeenBy, Applies, ToldByName, next_of, asked_at, info_of, IsNext};

use crate::front::{broken_by, is_info};
use crate::judge::{Ruling, SIZE_END, judge};
use crate::kinds::{Config, Next, TalkFault};
use crate::order::{after_answer, after_hello, settles_replies};
use crate::pending::{Pending, nothing};
use crate::requests::put_request_at;
use crate::told::{Size, Told, end_of};
use lnbd_history::{OptAnswer, Phase};
use lnbd_model::{Blocks, Breach, Cause, Contexts, ExportInfo, Listing, NoMemory, Text, Texts};
use lnbd_options::OptionHead;
use lnbd_records::names::{
    FLAG_FIXED_NEWSTYLE, OPT_EXPORT_NAME, OPT_EXTENDED_HEADERS, OPT_LIST, OPT_SET_META_CONTEXT,
};
use std::alloc::Global;
use std::marker::Model;
use std::mem::replace;

/// What was set, asked and told, and what is agreed by it.
#[derive(Debug, Drop)]
pub struct Talk {
    alloc: Global,
    name: Text,
    wanted: Texts,
    asks_structured: bool,
    asks_extended: bool,
    opt_mode: bool,
    phase: Phase,
    pending: Pending,
    info: ExportInfo,
    has_info: bool,
    listing: Listing,
    answer: Option<OptAnswer>,
}

impl Model for Talk {
    ghost use Rattle.std.specs.Prelude.{length, ◌≤◌};
    ghost use Rattle.lnbd_records.specs.Limits.{max_contexts};
    ghost use Rattle.lnbd_history.specs.Talk.{Talk};
    ghost use Rattle.lnbd_negotiate.specs.Told.{pending_of, export_told};

    ghost Value = { Talk };

    ghost view = { λ t. record {
      name = t.name;
      wanted = t.wanted;
      asks_structured = t.asks_structured;
      asks_extended = t.asks_extended;
      opt_mode = t.opt_mode;
      phase = t.phase;
      pending = pending_of t.pending;
      structured = t.info.structured;
      extended = t.info.extended;
      contexts = t.info.contexts;
      export = export_told t.has_info t.info;
      listing = t.listing;
      answer = t.answer;
    } };

    ghost invariant = { λ t. length t.wanted ≤ max_contexts };
}

impl Talk {
    /// A talk that has not begun.
    pub fn new(alloc: Global, config: Config) -> Talk
        requires { length config.contexts ≤ max_contexts }
        ensures { result ≡ begun_with config }
    {
        Talk {
            alloc,
            name: config.name,
            wanted: config.contexts,
            asks_structured: config.structured,
            asks_extended: config.extended,
            opt_mode: config.opt_mode,
            phase: Phase::Greeting,
            pending: nothing(alloc),
            info: ExportInfo {
                size: 0,
                flags: 0,
                blocks: None,
                name: None,
                description: None,
                contexts: Contexts::new(alloc),
                structured: false,
                extended: false,
            },
            has_info: false,
            listing: Listing::new(alloc),
            answer: None,
        }
    }

    /// Sets the export's name that later requests carry, and leaves no context agreed.
    pub fn set_name(&mut self, name: Text)
        ensures { self.new ≡ taking (Set (setting.Name name)) self.old }
    {
        self.name = name;
        self.info.contexts = Contexts::new(self.alloc);
    }

    /// Adds a context to those that later requests ask for.
    pub fn add_context(&mut self, name: Text) -> Result<(), NoMemory>
        requires { length self.old.wanted < max_contexts }
        ensures ok { OnOk result (self.new ≡ taking (Set (setting.Context name)) self.old) }
        ensures err { OnErr result (self.new ≡ self.old) }
    {
        self.wanted.push(name)
    }

    /// Sets whether extended headers are asked for after the hello.
    pub fn set_extended(&mut self, on: bool)
        ensures { self.new ≡ taking (Set (setting.Extended on)) self.old }
    {
        self.asks_extended = on;
    }

    /// Sets whether structured replies are asked for after the hello, where extended headers don't come
    /// with them.
    pub fn set_structured(&mut self, on: bool)
        ensures { self.new ≡ taking (Set (setting.Structured on)) self.old }
    {
        self.asks_structured = on;
    }

    /// Sets whether the caller decides which option comes next.
    pub fn set_opt_mode(&mut self, on: bool)
        ensures { self.new ≡ taking (Set (setting.OptMode on)) self.old }
    {
        self.opt_mode = on;
    }

    /// Takes the server's hello with these handshake flags, and appends the first request to `out`.
    /// The client's flags, which go out before it, are `client_flags`.
    pub fn hello(&mut self, flags: u16, out: &mut Vec<u8>) -> Result<Next, TalkFault>
        requires { self.old.phase ≡ Greeting }
        ensures { Greets self.old flags out.old.items result self.new out.new.items }
    {
        if flags & FLAG_FIXED_NEWSTYLE == 0 {
            return Err(TalkFault::Cause(Cause::Broke(Breach::NotFixed)));
        }
        let phase = after_hello(
            self.asks_extended,
            self.asks_structured,
            self.opt_mode,
            &self.wanted,
        );
        put_request_at(self.alloc, phase, &self.name, &self.wanted, out)?;
        self.phase = phase;
        if self.opt_mode && !self.asks_structured && !self.asks_extended {
            Ok(Next::Caller)
        } else {
            Ok(Next::Wait)
        }
    }

    /// Takes a whole option reply, and appends the next request to `out` where the reply ends an answer
    /// and another option follows. Its head is judged too.
    #[tactic(auto, using(crate::proofs::Judged::broken_verdict, crate::proofs::Judged::broken_at))]
    pub fn apply(
        &mut self,
        head: &OptionHead,
        body: &[u8],
        out: &mut Vec<u8>,
    ) -> Result<Next, TalkFault>
        ensures { (sight : Sight) → IsSeenBy sight self.old
            → Applies self.old (reply_verdict sight head.now.option head.now.kind head.now.length body.now) out.old.items result self.new out.new.items }
    {
        match broken_by(self.phase, head) {
            Some(breach) => Err(TalkFault::Cause(Cause::Broke(breach))),
            None => self.apply_seen(head, body, out),
        }
    }

    /// The same of a reply whose head breaks nothing, as `look` tells.
    #[tactic(auto, using(crate::proofs::Judged::unbroken_asked, crate::proofs::Judged::unbroken_at))]
    pub fn apply_seen(
        &mut self,
        head: &OptionHead,
        body: &[u8],
        out: &mut Vec<u8>,
    ) -> Result<Next, TalkFault>
        requires { broken_by self.old.phase head.now ≡ None }
        ensures { (sight : Sight) → IsSeenBy sight self.old
            → Applies self.old (reply_verdict sight head.now.option head.now.kind head.now.length body.now) out.old.items result self.new out.new.items }
    {
        let sized = self.pending.size.is_some();
        match judge(self.alloc, self.pending.count, sized, head, body) {
            Ruling::NoMemory => Err(TalkFault::NoMemory),
            Ruling::Broken(breach) => Err(TalkFault::Cause(Cause::Broke(breach))),
            Ruling::Told(told) => self.take_told(head.option, told, out),
        }
    }

    /// Takes the reply to EXPORT_NAME.
    pub fn export_told(&mut self, size: u64, flags: u16) -> Result<Next, TalkFault>
        requires { self.old.phase ≡ AskedByName }
        ensures { ToldByName self.old size flags result self.new }
    {
        if size >= SIZE_END {
            return Err(TalkFault::Cause(Cause::Broke(Breach::SizeTooBig)));
        }
        self.has_info = true;
        self.info.size = size;
        self.info.flags = flags;
        self.info.blocks = None;
        self.info.name = None;
        self.info.description = None;
        self.phase = Phase::Ready;
        Ok(Next::Ready)
    }

    /// Asks an option, and appends its request to `out`.
    pub fn ask(&mut self, option: u32, out: &mut Vec<u8>) -> Result<(), NoMemory>
        requires { self.old.phase ≡ OptMode }
        ensures ok { OnOk result (Takes (Opted option) self.old self.new out.old.items out.new.items) }
        ensures err { OnErr result (Stays self.old self.new out.old.items out.new.items) }
    {
        let phase = Phase::Asked(option);
        put_request_at(self.alloc, phase, &self.name, &self.wanted, out)?;
        self.phase = phase;
        Ok(())
    }

    /// What INFO, GO or EXPORT_NAME last told, and what is agreed now.
    pub fn info(&self) -> Option<&ExportInfo>
        ensures { option_copied result ≡ info_of self.now }
    {
        if self.has_info {
            Some(&self.info)
        } else {
            None
        }
    }

    /// What the last acknowledged LIST told.
    pub fn listed(&self) -> &Listing
        ensures { result.now ≡ self.now.listing }
    {
        &self.listing
    }

    /// The answer to the last option that the caller asked. None where none is answered yet.
    pub fn answer(&self) -> Option<OptAnswer>
        ensures { result ≡ self.now.answer }
    {
        self.answer
    }

    /// The option last asked while it is unanswered.
    pub fn asked(&self) -> Option<u32>
        ensures { result ≡ asked_at self.now.phase }
    {
        match self.phase {
            Phase::Asked(option) => Some(option),
            Phase::AskedByName => Some(OPT_EXPORT_NAME),
            _ => None,
        }
    }

    /// Where negotiation stands.
    pub fn phase(&self) -> Phase
        ensures { result ≡ self.now.phase }
    {
        self.phase
    }

    /// Whether structured replies are on.
    pub fn structured(&self) -> bool
        ensures { result ≡ self.now.structured }
    {
        self.info.structured
    }

    /// Whether extended headers are on; structured replies are then on too.
    pub fn extended(&self) -> bool
        ensures { result ≡ self.now.extended }
    {
        self.info.extended
    }

    /// The meta contexts that are agreed.
    pub fn contexts(&self) -> &Contexts
        ensures { result.now ≡ self.now.contexts }
    {
        &self.info.contexts
    }

    /// How many contexts later requests ask for.
    pub fn wanted(&self) -> usize
        ensures count { result ≡ length self.now.wanted }
        ensures limit { result ≤ max_contexts }
    {
        self.wanted.len()
    }

    /// Takes one option reply that does nothing wrong, and tells what comes next.
    fn take_told(&mut self, option: u32, told: Told, out: &mut Vec<u8>) -> Result<Next, TalkFault>
        requires { is_asked option self.old.phase ≡ true }
        ensures { Applies self.old (Some (OptionReply (told_of told))) out.old.items result self.new out.new.items }
    {
        self.take(option, told, out)?;
        self.next(option)
    }

    /// Takes one option reply that does nothing wrong, and asks the next option where it ends an answer.
    fn take(&mut self, option: u32, told: Told, out: &mut Vec<u8>) -> Result<(), NoMemory>
        requires { is_asked option self.old.phase ≡ true }
        ensures ok { OnOk result (Takes (Replied (told_of told)) self.old self.new out.old.items out.new.items) }
        ensures err { OnErr result (Stays self.old self.new out.old.items out.new.items) }
    {
        match end_of(&told) {
            Some(code) => self.end_answer(option, code, out),
            None => self.pending.note(told),
        }
    }

    /// What comes next after an answer to this option.
    fn next(&self, option: u32) -> Result<Next, TalkFault>
        ensures { IsNext option self.now.phase result }
    {
        match self.phase {
            Phase::OptMode => Ok(Next::Caller),
            Phase::Ready => Ok(Next::Ready),
            Phase::AskedByName => Ok(Next::WaitExport),
            Phase::Refused(code) => Err(TalkFault::Cause(Cause::Refused { option, code })),
            Phase::Asked(_) => Ok(Next::Wait),
            Phase::Greeting => Ok(Next::Wait),
        }
    }

    /// Takes the end of the answer to this option, and asks the next.
    fn end_answer(
        &mut self,
        option: u32,
        code: Option<u32>,
        out: &mut Vec<u8>,
    ) -> Result<(), NoMemory>
        ensures ok { OnOk result ((self.new ≡ answered option (end code) self.old)
            × (out.new.items ≡ out.old.items ++ concat (request_at self.new.phase self.old.name self.old.wanted))) }
        ensures err { OnErr result (Stays self.old self.new out.old.items out.new.items) }
    {
        let phase = after_answer(
            self.asks_structured,
            self.opt_mode,
            &self.wanted,
            option,
            code,
        );
        put_request_at(self.alloc, phase, &self.name, &self.wanted, out)?;
        self.close(option, code, phase);
        Ok(())
    }

    /// The answer to this option ends, and negotiation comes to this phase.
    fn close(&mut self, option: u32, code: Option<u32>, phase: Phase)
        ensures { phase ≡ after_answer self.old.asks_structured self.old.opt_mode self.old.wanted option (end code) → self.new ≡ answered option (end code) self.old }
    {
        let Pending {
            count: _,
            size,
            blocks,
            name,
            description,
            servers,
            contexts,
        } = replace(&mut self.pending, nothing(self.alloc));
        let acknowledged = code.is_none();
        self.close_structured(option, acknowledged);
        self.close_extended(option, acknowledged);
        self.close_contexts(option, acknowledged, contexts);
        self.close_info(option, acknowledged, size, blocks, name, description);
        self.close_listing(option, acknowledged, servers);
        self.close_answer(option, code);
        self.phase = phase;
    }

    fn close_structured(&mut self, option: u32, acknowledged: bool)
        ensures { self.new ≡ record self.old { structured = (settles_replies option && acknowledged) || self.old.structured } }
    {
        if settles_replies(option) && acknowledged {
            self.info.structured = true;
        }
    }

    fn close_extended(&mut self, option: u32, acknowledged: bool)
        ensures { self.new ≡ record self.old { extended = ((option == opt_extended_headers) && acknowledged) || self.old.extended } }
    {
        if option == OPT_EXTENDED_HEADERS && acknowledged {
            self.info.extended = true;
        }
    }

    fn close_contexts(&mut self, option: u32, acknowledged: bool, told: Contexts)
        ensures { self.new ≡ record self.old { contexts = if option == opt_set_meta_context then if acknowledged then told else [] else self.old.contexts } }
    {
        if option == OPT_SET_META_CONTEXT {
            if acknowledged {
                self.info.contexts = told;
            } else {
                self.info.contexts = Contexts::new(self.alloc);
            }
        }
    }

    fn close_info(
        &mut self,
        option: u32,
        acknowledged: bool,
        size: Option<Size>,
        blocks: Option<Blocks>,
        name: Option<Text>,
        description: Option<Text>,
    )
        ensures { self.new ≡ record self.old { export = if is_info option && acknowledged then export_of size blocks name description else self.old.export } }
    {
        if is_info(option) && acknowledged {
            match size {
                None => self.has_info = false,
                Some(size) => {
                    self.has_info = true;
                    self.info.size = size.size;
                    self.info.flags = size.flags;
                    self.info.blocks = blocks;
                    self.info.name = name;
                    self.info.description = description;
                }
            }
        }
    }

    fn close_listing(&mut self, option: u32, acknowledged: bool, servers: Listing)
        ensures { self.new ≡ record self.old { listing = if (option == opt_list) && acknowledged then servers else self.old.listing } }
    {
        if option == OPT_LIST && acknowledged {
            self.listing = servers;
        }
    }

    fn close_answer(&mut self, option: u32, code: Option<u32>)
        ensures { self.new ≡ record self.old { answer = if self.old.opt_mode && not (settles_replies option) then Some (opt_answer_of option (end code)) else self.old.answer } }
    {
        if self.opt_mode && !settles_replies(option) {
            self.answer = Some(match code {
                None => OptAnswer::Ok,
                Some(code) => OptAnswer::Refused { option, code },
            });
        }
    }
}
