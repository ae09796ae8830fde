// The memory of the proxy, which is taken once.
ghost use Rattle.std.specs.Prelude.{◌≡◌, [], None, IfOk, string_bytes};
ghost use Rattle.pp_conf.specs.Logs.{log_place, shown_place};
ghost use Rattle.pp_desk.specs.Opening.{HasBuffers, HasRoom, IsNew, IsSet, is_logged};

use crate::desk::{Desk, MAX_CLIENTS, READ_LEN};
use arrayvec::ArrayVec;
use pp_cache::{Cache, Noted};
use pp_client::Room;
use pp_conf::Conf;
use pp_flow::Flow;
use pp_peers::{Limits, Peers};
use pp_state::State;
use pp_text::OutOfMemory;
use pp_world::AccessLog;
use std::alloc::{AllocError, Global};

/// The file of an entry with 64 chunks of its body: the head block and the gates of the longest body, and the chunks.
const FILE_LEN: usize = 24_576 + 262_144;

/// Ours: a run has at most so small a part of the pool, so that many bodies at once keep the fronts of their runs.
const RUNS_OF_POOL: u32 = 128;

impl Desk {
    /// A desk with these settings and without a client, with the memory for all that is not a client's own.
    pub fn open(alloc: Global, conf: &Conf) -> Result<Desk, OutOfMemory>
        ensures set { IfOk result (λ d. IsSet conf.now d.state) }
        ensures new { IfOk result (λ d. IsNew conf.now d.state) }
        ensures room { IfOk result (λ d. HasRoom d.state) }
        ensures buffers { IfOk result HasBuffers }
        ensures peers { IfOk result (λ d. d.peers ≡ []) }
        ensures nobody { IfOk result (λ d. d.turned_away ≡ None) }
        ensures logs { IfOk result (λ d. d.logs_replies ≡ is_logged (log_place (string_bytes conf.now.access_log))) }
    {
        Ok(Desk {
            peers: Peers::new(alloc)?,
            buffer: vec![in alloc; 0; READ_LEN]?,
            data: Vec::with_capacity(alloc, READ_LEN)?,
            room: Box::new(alloc, Room::new()).map_err(AllocError::from)?,
            file: vec![in alloc; 0; FILE_LEN]?,
            state: state_of(alloc, conf)?,
            turned_away: None,
            logs_replies: is_logged(&conf.log_place()),
        })
    }
}

/// Nobody is there, nothing is under way, and nothing is in memory.
fn state_of(alloc: Global, conf: &Conf) -> Result<State, OutOfMemory>
    ensures set { IfOk result (IsSet conf.now) }
    ensures new { IfOk result (IsNew conf.now) }
    ensures room { IfOk result HasRoom }
{
    let mut name = ArrayVec::new();
    let _ = name.try_extend_from_slice(conf.name.as_slice());
    Ok(State {
        alloc,
        name,
        trigger: conf.high.min(conf.critical.saturating_sub(31)),
        floor: conf.low.min(conf.critical.saturating_sub(32)),
        shares_fetches: conf.share_fetches,
        limits: Limits {
            host_connections: conf.host_connections,
            pipelines_asks: conf.pipeline_asks,
        },
        run: conf.disk_run.min(conf.critical / RUNS_OF_POOL).max(1),
        has_lost_draft: false,
        now: 0,
        has_ticked: false,
        is_ticked: false,
        is_stopped: false,
        is_evicting: false,
        awake: Vec::with_capacity(alloc, MAX_CLIENTS + 1)?,
        forgotten: Noted::new(alloc)?,
        refused: Noted::new(alloc)?,
        is_astray: false,
        seats: Vec::with_capacity(alloc, MAX_CLIENTS)?,
        flow: Flow::new(alloc)?,
        cache: Cache::new(alloc, conf.critical)?,
    })
}

/// The operator keeps a log of replies.
fn is_logged(place: &AccessLog<'_>) -> bool
    ensures { result ≡ is_logged (shown_place place.now) }
{
    match place {
        AccessLog::Nowhere => false,
        AccessLog::Console | AccessLog::File(_) => true,
    }
}
