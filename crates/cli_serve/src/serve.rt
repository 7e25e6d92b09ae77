// `serve`: connections served by a limiter, each by a thread that waits for it.
ghost use Rattle.std.specs.Prelude.{◌≡◌};
ghost use Rattle.rate_io.specs.Events.{Continues, since};
ghost use Rattle.descriptor_tree.specs.Views.{config_view};
ghost use Rattle.http_serve.specs.Links.{IsUnused};
ghost use Rattle.cli_exits.specs.World.{exit_of};
ghost use Rattle.command_words.specs.Words.{AreInRange};
ghost use Rattle.cli_serve.specs.Served.{HasBegun, ExplainsServe};
ghost use Rattle.cli_serve.specs.Serving.{Found, world_of, HasServing};
ghost use Rattle.command_words.specs.declared.command.Command.TheVariants.{Threads};
ghost use Rattle.command_words.specs.declared.command.ThreadJob.TheVariants.{Serve};
ghost use Rattle.command_words.specs.declared.command.ServeBy.TheVariants.{Workers};

use crate::lines::{PortLine, write_ends, write_port};
use cli_exits::Exit;
use command_words::ServeJob;
use descriptor_tree::Config;
use http_limiter::{Setup, serve_limited};
use http_serve::LinksFault;
use rate_io::{Listen, Sink};
use std::alloc::Global;
use std::hash::RandomState;
use std::sync::Wait;
use std::thread::Threads;

// Serves the connections at the port that was had, by so many threads, and writes how each ended.
fn serve_and_end<R: Threads + Wait + Sync, K: Sink, L: Listen>(
    rt: &R,
    alloc: Global,
    seed: RandomState,
    config: Config,
    job: &ServeJob,
    workers: u32,
    sink: &mut K,
    listen: &mut L,
) -> Result<(), Exit>
where
    L::Link: Send,
    requires by { job.now.by ≡ Workers workers }
    requires range { AreInRange (Threads (Serve job.now)) }
    requires unused { IsUnused (L.history listen.old) }
    ensures { HasServing (config_view config) job.now (L.faults listen.old, L.faults listen.new) (record {
      written = K.written sink.old;
      after = K.written sink.new;
      faults = (K.faults sink.old, K.faults sink.new);
    }) (L.history listen.old) (L.history listen.new) (K.history sink.old) (K.history sink.new) (exit_of result) }
{
    let setup = Setup {
        workers,
        cells: job.cells,
        global_shadow: job.global_shadow,
        stats: job.stats,
    };
    match serve_limited(rt, alloc, seed, config, setup, listen, job.connections) {
        Ok(ends) => write_ends(alloc, &ends, sink),
        Err(LinksFault::Listen) => Err(Exit::ListenFault),
        Err(LinksFault::OutOfMemory) => Err(Exit::OutOfMemory),
    }
}

/// Has the port of a job, writes it and flushes, serves the connections by so many threads, and writes how each ended.
pub fn listen_and_serve<R: Threads + Wait + Sync, K: Sink, L: Listen>(
    rt: &R,
    alloc: Global,
    seed: RandomState,
    config: Config,
    job: &ServeJob,
    workers: u32,
    sink: &mut K,
    listen: &mut L,
) -> Result<(), Exit>
where
    L::Link: Send,
    requires by { job.now.by ≡ Workers workers }
    requires range { AreInRange (Threads (Serve job.now)) }
    requires unused { IsUnused (L.history listen.old) }
    ensures exit { (f : Found) →
        HasBegun (world_of f (record {
          written = K.written sink.old;
          after = K.written sink.new;
          faults = (K.faults sink.old, K.faults sink.new);
        }) (since (K.history sink.old) (K.history sink.new))) job.now (config_view config)
        → ExplainsServe (exit_of result) (world_of f (record {
          written = K.written sink.old;
          after = K.written sink.new;
          faults = (K.faults sink.old, K.faults sink.new);
        }) (since (K.history sink.old) (K.history sink.new))) (record {
          listens = since (L.history listen.old) (L.history listen.new);
          faults = (L.faults listen.old, L.faults listen.new);
        }) job.now }
    ensures listen { Continues (L.history listen.old) (L.history listen.new) }
    ensures sink { Continues (K.history sink.old) (K.history sink.new) }
{
    let Ok(port) = listen.bind(job.port) else {
        return Err(Exit::ListenFault);
    };
    match write_port(alloc, port, sink) {
        PortLine::Written => serve_and_end(rt, alloc, seed, config, job, workers, sink, listen),
        PortLine::Unwritten => Err(Exit::WriteFault),
        PortLine::NoMemory => Err(Exit::OutOfMemory),
    }
}
