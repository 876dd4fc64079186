//! What the words of a command line ask for.
ghost use Rattle.std.specs.Prelude.{◌≡◌, ◌≢◌, ℕ, ◌≤◌, List, [], ◌∷◌, IfSome, IfNone, MatchOption, codes, decimal};
ghost use Rattle.hipsd_run.specs.Command.{texts, Asks, IsCommand, IsCommandFor, doors_of};
ghost use Rattle.leaf_probe.specs.declared.asked.Probe.{Probe as AskedProbe};
ghost use Rattle.survey_commands.specs.declared.serve.AskedPlaces.{AskedPlaces as Places};
ghost use Rattle.hipsd_run.specs.declared.command.Command.TheVariants.{Probe as ProbeCommand, Make, Serve, Past, Catalog};

use decimal_scale::plain_decimal;
use leaf_probe::Probe;
use survey_commands::AskedPlaces;

/// What the words of a command line ask for.
#[derive(Clone, Copy, Debug, PartialEq, Eq)]
pub enum Command {
    /// One tile of the leaves that are read.
    Probe(Probe),
    /// One connection is served.
    Session,
    /// The survey's files are put on the shelf.
    Export,
    /// The shelf is compared with the survey.
    Verify,
    /// The survey that so many edits make is made, and summed up.
    Make {
        /// What its edits are made from.
        number: u64,
        /// How many edits.
        edits: u32,
    },
    /// Connections are served at many doors at once.
    Serve(AskedPlaces),
    /// Files of past states are read.
    Past {
        /// How many generations may be held.
        cache: usize,
    },
    /// The tiles of a catalogue are put on the shelf.
    Catalog {
        /// The order of its deepest tiles.
        top: u8,
        /// How many rows a tile above them holds at most.
        per_tile: u32,
    },
    /// A peer's survey is copied.
    Mirror,
}

impl Command {
    // How many doors it needs.
    fn doors(self) -> usize
        ensures { result ≡ doors_of self }
    {
        match self {
            Command::Serve(asked) => asked.places,
            _ => 0,
        }
    }
}

/// The command that the words ask for, where there are so many doors; `None` if and only if the command line is invalid, or
/// it needs more doors.
pub fn command_for(words: &[String], doors: usize) -> Option<Command>
    ensures asked { IfSome result (Asks (texts words.now)) }
    ensures fits { IfSome result (λ command. doors_of command ≤ doors) }
    ensures none { IfNone result (¬ IsCommandFor doors (texts words.now)) }
{
    let command = read_command(words)?;
    if command.doors() <= doors {
        Some(command)
    } else {
        None
    }
}

/// The command that the words ask for; `None` if and only if the command line is invalid.
pub fn read_command(words: &[String]) -> Option<Command>
    ensures asked { IfSome result (Asks (texts words.now)) }
    ensures none { IfNone result (¬ IsCommand (texts words.now)) }
{
    match words {
        [name, top, n, order, npix] if name.as_str() == "probe" => {
            let probe = read_probe(top.as_str(), n.as_str(), order.as_str(), npix.as_str())?;
            Some(Command::Probe(probe))
        }
        [name, _, connections, places] if name.as_str() == "serve" => {
            read_serve(connections.as_str(), places.as_str())
        }
        [name] => read_name(name.as_str()),
        [name, word] => read_one(name.as_str(), word.as_str()),
        [name, word, other] => read_two(name.as_str(), word.as_str(), other.as_str()),
        _ => None,
    }
}

// The command that its name alone asks for.
fn read_name(name: &str) -> Option<Command>
    ensures asked { IfSome result (Asks (name.now ∷ [])) }
    ensures none { IfNone result (¬ IsCommand (name.now ∷ [])) }
{
    match name {
        "session" => Some(Command::Session),
        "export" => Some(Command::Export),
        "verify" => Some(Command::Verify),
        _ => None,
    }
}

// The command that its name and one word ask for.
fn read_one(name: &str, word: &str) -> Option<Command>
    ensures asked { IfSome result (Asks (name.now ∷ word.now ∷ [])) }
    ensures none { IfNone result (¬ IsCommand (name.now ∷ word.now ∷ [])) }
{
    match name {
        "past" => read_past(word),
        "mirror" => Some(Command::Mirror),
        _ => None,
    }
}

// The command that its name and two words ask for.
fn read_two(name: &str, word: &str, other: &str) -> Option<Command>
    ensures asked { IfSome result (Asks (name.now ∷ word.now ∷ other.now ∷ [])) }
    ensures none { IfNone result (¬ IsCommand (name.now ∷ word.now ∷ other.now ∷ [])) }
{
    match name {
        "make" => read_make(word, other),
        "catalog" => read_catalog(word, other),
        _ => None,
    }
}

// The probe that the words after `probe` ask for.
fn read_probe(top: &str, n: &str, order: &str, npix: &str) -> Option<Probe>
    ensures asked { IfSome result (λ asked.
        Asks (codes "probe" ∷ top.now ∷ n.now ∷ order.now ∷ npix.now ∷ []) (ProbeCommand asked)) }
    ensures none { IfNone result ((asked : AskedProbe) →
        ¬ Asks (codes "probe" ∷ top.now ∷ n.now ∷ order.now ∷ npix.now ∷ []) (ProbeCommand asked)) }
{
    let top = small_number(top, 3, 11)?;
    let n = small_number(n, 1, 9)?;
    let order = small_number(order, 0, top)?;
    let npix = plain_decimal(npix.as_bytes())?;
    Some(Probe {
        top,
        n,
        order,
        npix,
    })
}

// What the words after `make` ask for.
fn read_make(number: &str, edits: &str) -> Option<Command>
    ensures asked { IfSome result (Asks (codes "make" ∷ number.now ∷ edits.now ∷ [])) }
    ensures none { IfNone result ((n : ℕ) (m : ℕ) → ¬ Asks (codes "make" ∷ number.now ∷ edits.now ∷ []) (Make n m)) }
{
    let number = plain_decimal(number.as_bytes())?;
    let edits = plain_decimal(edits.as_bytes())?;
    if 1 <= edits && edits <= 4096 {
        let edits = edits as u32;
        Some(Command::Make { number, edits })
    } else {
        None
    }
}

// What the words after `serve` and its address ask for.
fn read_serve(connections: &str, places: &str) -> Option<Command>
    ensures asked { IfSome result (λ command. (address : List ℕ) → Asks (codes "serve" ∷ address ∷ connections.now ∷ places.now ∷ []) command) }
    ensures none { IfNone result ((address : List ℕ) (asked : Places)
        → ¬ Asks (codes "serve" ∷ address ∷ connections.now ∷ places.now ∷ []) (Serve asked)) }
{
    let connections = plain_decimal(connections.as_bytes())?;
    let places = small_number(places, 1, 64)?;
    if 1 <= connections && connections <= 65_536 {
        let connections = connections as u32;
        let places = usize::from(places);
        Some(Command::Serve(AskedPlaces {
            connections,
            places,
        }))
    } else {
        None
    }
}

// What the word after `past` asks for.
fn read_past(cache: &str) -> Option<Command>
    ensures asked { IfSome result (Asks (codes "past" ∷ cache.now ∷ [])) }
    ensures none { IfNone result ((n : ℕ) → ¬ Asks (codes "past" ∷ cache.now ∷ []) (Past n)) }
{
    let cache = small_number(cache, 1, 8)?;
    let cache = usize::from(cache);
    Some(Command::Past { cache })
}

// What the words after `catalog` ask for.
fn read_catalog(top: &str, per_tile: &str) -> Option<Command>
    ensures asked { IfSome result (Asks (codes "catalog" ∷ top.now ∷ per_tile.now ∷ [])) }
    ensures none { IfNone result ((k : ℕ) (n : ℕ) → ¬ Asks (codes "catalog" ∷ top.now ∷ per_tile.now ∷ []) (Catalog k n)) }
{
    let top = small_number(top, 0, 11)?;
    let per_tile = plain_decimal(per_tile.as_bytes())?;
    if 1 <= per_tile && per_tile <= 4096 {
        let per_tile = per_tile as u32;
        Some(Command::Catalog { top, per_tile })
    } else {
        None
    }
}

// A number from `least` to `greatest`, in plain decimals.
fn small_number(word: &str, least: u8, greatest: u8) -> Option<u8>
    ensures { MatchOption result ((n : ℕ) → least ≤ n → n ≤ greatest → word.now ≢ decimal n)
        (λ n. (word.now ≡ decimal n) × (least ≤ n) × (n ≤ greatest)) }
{
    let n = plain_decimal(word.as_bytes())?;
    if u64::from(least) <= n && n <= u64::from(greatest) {
        Some(n as u8)
    } else {
        None
    }
}
