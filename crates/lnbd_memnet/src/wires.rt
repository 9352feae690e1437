//! Wires that serve: the network behind them, their calls, and the counts. What a step of the schedule
//! does to a link stands in `link`.

ghost use Rattle.std.specs.Prelude.{◌≡◌, ◌^◌, ◌<◌, ◌≤◌, ◌∷◌, ◌++◌, ℕ, List, Some, [], true, false, map, length, IfOk, OnOk, OnErr};
ghost use Rattle.lnbd_link.specs.Answers.{IfLink, AcceptFailed, IfMoved, ReadFailed, IfSent, WriteFailed};
ghost use Rattle.lnbd_link.specs.Call.{Call, link_told, read_told, write_told};
ghost use Rattle.lnbd_link.specs.Call.{Connect, Listen, Accept, Read, Write, Pause, Shut};
ghost use Rattle.lnbd_link.specs.Contents.{Keeps};
ghost use Rattle.lnbd_link.specs.Count.{Rises, raised_by};
ghost use Rattle.lnbd_link.specs.Numbers.{is_given, is_open};
ghost use Rattle.lnbd_link.specs.Part.{Adds};
ghost use Rattle.lnbd_export.specs.Export.{size};
ghost use Rattle.lnbd_memnet.specs.Network.{AreApart, export_in, hosted_of, link_in, stored_of};
ghost use Rattle.lnbd_memnet.specs.Plays.{Connects, IsUnknown, Reads, Writes, all_due, shut_at};
ghost use Rattle.lnbd_memnet.specs.Schedule.{Moves};
ghost use Rattle.lnbd_memnet.specs.Wires.{Came, Counts, Steps, contents_of, told_by};
ghost use Rattle.lnbd_memnet.specs.declared.schedule.Schedule.TheVariants.{Seeded};

use crate::hosted::Served;
use crate::log::Log;
use crate::network::Network;
use crate::schedule::Schedule;
use lnbd_link::{Accepted, Got, Took, Want, WireFailed, Wires, raised};
use lnbd_model::{NoMemory, Target};
use std::alloc::Global;
use std::marker::Model;

/// Links in memory to sessions of a server, whose bytes are cut and whose replies are picked by a
/// schedule. They tell their transcript and what their exports hold until memory runs out. Contracts
/// see the exports and links, the calls and the counts.
#[derive(Drop)]
pub struct ServedWires {
    network: Network,
    log: Log,
    shorts: u64,
    faults: u64,
    idles: u64,
}

impl Model for ServedWires {
    ghost use Rattle.std.specs.Prelude.{◌≡◌, ◌≤◌};
    ghost use Rattle.lnbd_memnet.specs.Wires.{Served as Kept, Lasts};

    ghost Value = { Kept };

    ghost view = { λ a. record { network = a.network; calls = a.log; shorts = a.shorts; faults = a.faults; idles = a.idles } };

    ghost invariant = { λ a. (a.shorts ≤ a.faults) × (a.shorts ≡ 0 → Lasts a.log a.network a.faults) };
}

impl ServedWires {
    /// Wires to these exports, no two at one address. Each step of a list moves a byte at least.
    pub fn new(
        alloc: Global,
        exports: Vec<Served>,
        schedule: Schedule,
    ) -> Result<ServedWires, NoMemory>
        requires apart { AreApart (map hosted_of exports.items) }
        requires moves { Moves schedule }
        ensures told { IfOk result (λ wires. ⟦<ServedWires as Wires>⟧.told wires ≡ Some []) }
        ensures contents { IfOk result (λ wires. ⟦<ServedWires as Wires>⟧.contents wires ≡ Some (map stored_of (map hosted_of exports.items))) }
        ensures state { IfOk result (λ wires. wires ≡ record { network = record { exports = map hosted_of exports.items; links = []; schedule = schedule; turn = 0 }; calls = []; shorts = 0; faults = 0; idles = 0 }) }
    {
        Ok(ServedWires {
            network: Network::new(alloc, exports, schedule)?,
            log: Log::new(alloc),
            shorts: 0,
            faults: 0,
            idles: 0,
        })
    }

    /// How many exports are behind these wires.
    pub fn exports(&self) -> usize
        ensures { result ≡ length self.now.network.exports }
    {
        self.network.exports()
    }

    /// What the export at this place of the list holds now.
    pub fn bytes(&self, index: usize) -> &[u8]
        requires { index < length self.now.network.exports }
        ensures { result.now ≡ (export_in self.now.network.exports index).export.bytes }
    {
        self.network.bytes(index)
    }

    /// The size and the texts of the export at this place of the list have room on the wire.
    pub fn fits(&self, index: usize)
        requires { index < length self.now.network.exports }
        ensures size { size (export_in self.now.network.exports index).export < 2 ^ 63 }
        ensures name { length (export_in self.now.network.exports index).export.name ≤ 4096 }
        ensures description { length (export_in self.now.network.exports index).export.description ≤ 4096 }
    {
        self.network.fits(index);
    }

    /// How often memory ran out.
    pub fn shorts(&self) -> u64
        ensures { result ≡ self.now.shorts }
    {
        self.shorts
    }

    /// Whether this number draws what is said of each read and write.
    pub fn is_seeded(&self, seed: u64) -> bool
        ensures { result ≡ true → self.now.network.schedule ≡ Seeded seed }
    {
        self.network.is_seeded(seed)
    }

    /// The calls were played one after another from the start, while memory lasted.
    pub fn came(&self)
        ensures { self.now.shorts ≡ 0 → Came self.now.calls self.now.network }
    {
        let _ = &self.network;
    }

    fn connect_to(&mut self, to: &Target) -> Result<u32, WireFailed>
        ensures step { Steps self.old (Connect to.now (link_told result)) self.new }
        ensures same { IfOk result (λ link. self.new.shorts ≡ self.old.shorts) }
        ensures counts { Counts (IsUnknown to.now self.old.network.exports) self.old self.new }
        ensures faults { self.old.faults ≤ self.new.faults }
        ensures cause { OnErr result (Rises 1 self.old.faults self.new.faults) }
        ensures idles { self.new.idles ≡ self.old.idles }
    {
        match tell_connect(&mut self.network, &mut self.log, to) {
            Ok(Some(link)) => Ok(link),
            Ok(None) => {
                self.faults = raised(self.faults, 1);
                Err(WireFailed)
            }
            Err(_) => {
                fall_short(&mut self.shorts, &mut self.faults);
                Err(WireFailed)
            }
        }
    }

    fn listen_at(&mut self, at: &Target)
        ensures step { Steps self.old (Listen at.now None) self.new }
        ensures counts { Counts (Unit {0}) self.old self.new }
        ensures faults { Rises 1 self.old.faults self.new.faults }
        ensures later { self.old.faults ≤ self.new.faults }
        ensures idles { self.new.idles ≡ self.old.idles }
    {
        match self.log.listen(at) {
            Ok(()) => self.faults = raised(self.faults, 1),
            Err(_) => fall_short(&mut self.shorts, &mut self.faults),
        }
    }

    fn accept_on(&mut self, listener: u32)
        ensures step { Steps self.old (Accept listener Accepted.Failed) self.new }
        ensures counts { Counts (Unit {0}) self.old self.new }
        ensures faults { Rises 1 self.old.faults self.new.faults }
        ensures later { self.old.faults ≤ self.new.faults }
        ensures idles { self.new.idles ≡ self.old.idles }
    {
        match self.log.accept(listener) {
            Ok(()) => self.faults = raised(self.faults, 1),
            Err(_) => fall_short(&mut self.shorts, &mut self.faults),
        }
    }

    fn read_from(&mut self, link: u32, into: &mut [u8]) -> Got
        requires { 0 < length into.old }
        ensures step { Steps self.old (Read link (length into.old) (read_told result into.new)) self.new }
        ensures counts { Counts ((link_in self.old.network.links link).opened ≡ false) self.old self.new }
        ensures count { IfMoved result (λ n. (0 < n) × (n ≤ length into.old)) }
        ensures shut { (link_in self.old.network.links link).opened ≡ false → ReadFailed result }
        ensures faults { self.old.faults ≤ self.new.faults }
        ensures cause { ReadFailed result → Rises 1 self.old.faults self.new.faults }
        ensures idles { self.new.idles ≡ self.old.idles }
    {
        match tell_read(&mut self.network, &mut self.log, link, into) {
            Ok(got) => {
                if got.is_failed() {
                    self.faults = raised(self.faults, 1);
                }
                got
            }
            Err(_) => {
                fall_short(&mut self.shorts, &mut self.faults);
                Got::Failed
            }
        }
    }

    fn write_on(&mut self, link: u32, from: &[u8]) -> Took
        requires { 0 < length from.now }
        ensures step { Steps self.old (Write link (length from.now) (write_told result from.now)) self.new }
        ensures counts { Counts ((link_in self.old.network.links link).opened ≡ false) self.old self.new }
        ensures count { IfSent result (λ n. (0 < n) × (n ≤ length from.now)) }
        ensures shut { (link_in self.old.network.links link).opened ≡ false → WriteFailed result }
        ensures faults { self.old.faults ≤ self.new.faults }
        ensures cause { WriteFailed result → Rises 1 self.old.faults self.new.faults }
        ensures idles { self.new.idles ≡ self.old.idles }
    {
        match tell_write(&mut self.network, &mut self.log, link, from) {
            Ok(took) => {
                if took.is_failed() {
                    self.faults = raised(self.faults, 1);
                }
                took
            }
            Err(_) => {
                fall_short(&mut self.shorts, &mut self.faults);
                Took::Failed
            }
        }
    }

    fn pause_for(&mut self, wants: &[Want])
        ensures step { Steps self.old (Pause wants.now) self.new }
        ensures counts { Counts ⊥ self.old self.new }
        ensures faults { self.old.faults ≤ self.new.faults }
        ensures idles { self.new.idles ≡ raised_by 1 self.old.idles }
    {
        self.idles = raised(self.idles, 1);
        self.network.pause(wants);
        match self.log.pause(wants) {
            Ok(()) => {}
            Err(_) => fall_short(&mut self.shorts, &mut self.faults),
        }
    }

    fn shut_off(&mut self, link: u32)
        ensures step { Steps self.old (Shut link) self.new }
        ensures counts { Counts ⊥ self.old self.new }
        ensures faults { self.old.faults ≤ self.new.faults }
        ensures idles { self.new.idles ≡ self.old.idles }
    {
        self.network.shut(link);
        match self.log.shut(link) {
            Ok(()) => {}
            Err(_) => fall_short(&mut self.shorts, &mut self.faults),
        }
    }
}

/// Memory ran out.
fn fall_short(shorts: &mut u64, faults: &mut u64)
    ensures shorts { shorts.new ≡ raised_by 1 shorts.old }
    ensures faults { faults.new ≡ raised_by 1 faults.old }
{
    *shorts = raised(*shorts, 1);
    *faults = raised(*faults, 1);
}

/// A connect, which is then told.
fn tell_connect(network: &mut Network, log: &mut Log, to: &Target) -> Result<Option<u32>, NoMemory>
    ensures plays { IfOk result (λ link. Connects network.old to.now link network.new) }
    ensures told { IfOk result (λ link. log.new ≡ log.old ++ Connect to.now link ∷ []) }
{
    let link = network.connect(to)?;
    log.connect(to, link)?;
    Ok(link)
}

/// A read, which is then told.
fn tell_read(
    network: &mut Network,
    log: &mut Log,
    link: u32,
    into: &mut [u8],
) -> Result<Got, NoMemory>
    requires { 0 < length into.old }
    ensures plays { IfOk result (λ got. Reads network.old link (length into.old) (read_told got into.new) network.new) }
    ensures told { IfOk result (λ got. log.new ≡ log.old ++ Read link (length into.old) (read_told got into.new) ∷ []) }
    ensures count { IfOk result (λ got. IfMoved got (λ n. (0 < n) × (n ≤ length into.old))) }
    ensures well { IfOk result (λ got. ReadFailed got → (link_in network.old.links link).opened ≡ false) }
    ensures shut { IfOk result (λ got. (link_in network.old.links link).opened ≡ false → ReadFailed got) }
{
    let got = network.read(link, into)?;
    log.read(link, into, got)?;
    Ok(got)
}

/// A write, which is then told.
fn tell_write(
    network: &mut Network,
    log: &mut Log,
    link: u32,
    from: &[u8],
) -> Result<Took, NoMemory>
    requires { 0 < length from.now }
    ensures plays { IfOk result (λ took. Writes network.old link (length from.now) (write_told took from.now) network.new) }
    ensures told { IfOk result (λ took. log.new ≡ log.old ++ Write link (length from.now) (write_told took from.now) ∷ []) }
    ensures count { IfOk result (λ took. IfSent took (λ n. (0 < n) × (n ≤ length from.now))) }
    ensures well { IfOk result (λ took. WriteFailed took → (link_in network.old.links link).opened ≡ false) }
    ensures shut { IfOk result (λ took. (link_in network.old.links link).opened ≡ false → WriteFailed took) }
{
    let took = network.write(link, from)?;
    log.write(link, from, took)?;
    Ok(took)
}

impl Wires for ServedWires {
    ghost told = { told_by };

    ghost contents = { contents_of };

    ghost faults = { λ w. w.faults };

    ghost idles = { λ w. w.idles };

    fn connect(&mut self, to: &Target) -> Result<u32, WireFailed>
        ensures told { Adds (told_by self.old) (told_by self.new) (Connect to.now (link_told result)) }
        ensures fresh { IfOk result (λ link. (calls : List Call) → told_by self.old ≡ Some calls → is_given link calls ≡ false) }
        ensures contents { Keeps (contents_of self.old) (contents_of self.new) }
        ensures faults { self.old.faults ≤ self.new.faults }
        ensures cause { OnErr result (Rises 1 self.old.faults self.new.faults) }
        ensures idles { self.old.idles ≤ self.new.idles }
        ensures step { Steps self.old (Connect to.now (link_told result)) self.new }
        ensures counts { Counts (IsUnknown to.now self.old.network.exports) self.old self.new }
    {
        self.came();
        self.connect_to(to)
    }

    fn listen(&mut self, at: &Target) -> Result<u32, WireFailed>
        ensures told { Adds (told_by self.old) (told_by self.new) (Listen at.now (link_told result)) }
        ensures fresh { IfOk result (λ link. (calls : List Call) → told_by self.old ≡ Some calls → is_given link calls ≡ false) }
        ensures contents { Keeps (contents_of self.old) (contents_of self.new) }
        ensures faults { self.old.faults ≤ self.new.faults }
        ensures cause { OnErr result (Rises 1 self.old.faults self.new.faults) }
        ensures idles { self.old.idles ≤ self.new.idles }
        ensures step { Steps self.old (Listen at.now (link_told result)) self.new }
        ensures counts { Counts (Unit {0}) self.old self.new }
    {
        self.listen_at(at);
        Err(WireFailed)
    }

    fn accept(&mut self, listener: u32) -> Accepted
        ensures told { Adds (told_by self.old) (told_by self.new) (Accept listener result) }
        ensures fresh { IfLink result (λ link. (calls : List Call) → told_by self.old ≡ Some calls → is_given link calls ≡ false) }
        ensures opened { (calls : List Call) → told_by self.old ≡ Some calls → is_open listener calls ≡ false → AcceptFailed result }
        ensures contents { Keeps (contents_of self.old) (contents_of self.new) }
        ensures faults { self.old.faults ≤ self.new.faults }
        ensures cause { AcceptFailed result → Rises 1 self.old.faults self.new.faults }
        ensures idles { self.old.idles ≤ self.new.idles }
        ensures step { Steps self.old (Accept listener result) self.new }
        ensures counts { Counts (Unit {0}) self.old self.new }
    {
        self.accept_on(listener);
        Accepted::Failed
    }

    fn read(&mut self, link: u32, into: &mut [u8]) -> Got
        requires { 0 < length into.old }
        ensures told { Adds (told_by self.old) (told_by self.new) (Read link (length into.old) (read_told result into.new)) }
        ensures count { IfMoved result (λ n. (0 < n) × (n ≤ length into.old)) }
        ensures opened { (calls : List Call) → told_by self.old ≡ Some calls → is_open link calls ≡ false → ReadFailed result }
        ensures contents { Keeps (contents_of self.old) (contents_of self.new) }
        ensures faults { self.old.faults ≤ self.new.faults }
        ensures cause { ReadFailed result → Rises 1 self.old.faults self.new.faults }
        ensures idles { self.old.idles ≤ self.new.idles }
        ensures step { Steps self.old (Read link (length into.old) (read_told result into.new)) self.new }
        ensures counts { Counts ((link_in self.old.network.links link).opened ≡ false) self.old self.new }
    {
        self.came();
        self.read_from(link, into)
    }

    fn write(&mut self, link: u32, from: &[u8]) -> Took
        requires { 0 < length from.now }
        ensures told { Adds (told_by self.old) (told_by self.new) (Write link (length from.now) (write_told result from.now)) }
        ensures count { IfSent result (λ n. (0 < n) × (n ≤ length from.now)) }
        ensures opened { (calls : List Call) → told_by self.old ≡ Some calls → is_open link calls ≡ false → WriteFailed result }
        ensures contents { Keeps (contents_of self.old) (contents_of self.new) }
        ensures faults { self.old.faults ≤ self.new.faults }
        ensures cause { WriteFailed result → Rises 1 self.old.faults self.new.faults }
        ensures idles { self.old.idles ≤ self.new.idles }
        ensures step { Steps self.old (Write link (length from.now) (write_told result from.now)) self.new }
        ensures counts { Counts ((link_in self.old.network.links link).opened ≡ false) self.old self.new }
    {
        self.came();
        self.write_on(link, from)
    }

    fn pause(&mut self, wants: &[Want])
        ensures told { Adds (told_by self.old) (told_by self.new) (Pause wants.now) }
        ensures contents { Keeps (contents_of self.old) (contents_of self.new) }
        ensures faults { self.old.faults ≤ self.new.faults }
        ensures idles { Rises 1 self.old.idles self.new.idles }
        ensures once { self.new.idles ≡ raised_by 1 self.old.idles }
        ensures step { Steps self.old (Pause wants.now) self.new }
        ensures counts { Counts ⊥ self.old self.new }
    {
        self.pause_for(wants);
    }

    fn shut(&mut self, link: u32)
        ensures told { Adds (told_by self.old) (told_by self.new) (Shut link) }
        ensures contents { Keeps (contents_of self.old) (contents_of self.new) }
        ensures faults { self.old.faults ≤ self.new.faults }
        ensures idles { self.old.idles ≤ self.new.idles }
        ensures step { Steps self.old (Shut link) self.new }
        ensures counts { Counts ⊥ self.old self.new }
    {
        self.shut_off(link);
    }

    fn faults(&self) -> u64 {
        self.log.few();
        self.faults
    }

    fn idles(&self) -> u64 {
        self.idles
    }
}
