// `serve --tasks`: connections served by a limiter, all on one thread.
ghost use Rattle.std.specs.Prelude.{◌≡◌};
ghost use Rattle.rate_io.specs.Events.{Continues, since};
ghost use Rattle.descriptor_tree.specs.Views.{config_view};
ghost use Rattle.http_serve.specs.Links.{IsUnused};
ghost use Rattle.cli_exits.specs.World.{exit_of};
ghost use Rattle.command_words.specs.Words.{AreInRange};
ghost use Rattle.cli_serve.specs.Served.{HasBegun, ExplainsServe};
ghost use Rattle.cli_serve.specs.Serving.{Found, world_of, HasServing};
ghost use Rattle.command_words.specs.declared.command.Command.TheVariants.{Threads};
ghost use Rattle.command_words.specs.declared.command.ThreadJob.TheVariants.{Serve};
ghost use Rattle.command_words.specs.declared.command.ServeBy.TheVariants.{Tasks};

use crate::lines::{PortLine, write_ends, write_port};
use cli_exits::Exit;
use command_words::ServeJob;
use conn_tasks::PollListen;
use descriptor_tree::Config;
use http_serve::LinksFault;
use limiter_tasks::{TaskSetup, serve_limited_tasks};
use rate_io::Sink;
use std::alloc::Global;
use std::hash::RandomState;
use std::sync::Wait;

// Serves the connections at the port that was had, by so many tasks on this thread, and writes how each ended.
fn serve_tasks_and_end<R: Wait, K: Sink, Q: PollListen>(
    rt: &R,
    alloc: Global,
    seed: RandomState,
    config: Config,
    job: &ServeJob,
    tasks: u32,
    sink: &mut K,
    polls: &mut Q,
) -> Result<(), Exit>
    requires by { job.now.by ≡ Tasks tasks }
    requires range { AreInRange (Threads (Serve job.now)) }
    requires unused { IsUnused (Q.history polls.old) }
    ensures { HasServing (config_view config) job.now (Q.faults polls.old, Q.faults polls.new) (record {
      written = K.written sink.old;
      after = K.written sink.new;
      faults = (K.faults sink.old, K.faults sink.new);
    }) (Q.history polls.old) (Q.history polls.new) (K.history sink.old) (K.history sink.new) (exit_of result) }
{
    let setup = TaskSetup {
        cells: job.cells,
        global_shadow: job.global_shadow,
        stats: job.stats,
    };
    match serve_limited_tasks(
        rt,
        alloc,
        seed,
        config,
        setup,
        polls,
        job.connections,
        tasks,
    ) {
        Ok(ends) => write_ends(alloc, &ends, sink),
        Err(LinksFault::Listen) => Err(Exit::ListenFault),
        Err(LinksFault::OutOfMemory) => Err(Exit::OutOfMemory),
    }
}

/// Has the port of a job, writes it and flushes, serves the connections by so many tasks on this thread, and writes how each ended.
pub fn poll_and_serve<R: Wait, K: Sink, Q: PollListen>(
    rt: &R,
    alloc: Global,
    seed: RandomState,
    config: Config,
    job: &ServeJob,
    tasks: u32,
    sink: &mut K,
    polls: &mut Q,
) -> Result<(), Exit>
    requires by { job.now.by ≡ Tasks tasks }
    requires range { AreInRange (Threads (Serve job.now)) }
    requires unused { IsUnused (Q.history polls.old) }
    ensures exit { (f : Found) →
        HasBegun (world_of f (record {
          written = K.written sink.old;
          after = K.written sink.new;
          faults = (K.faults sink.old, K.faults sink.new);
        }) (since (K.history sink.old) (K.history sink.new))) job.now (config_view config)
        → ExplainsServe (exit_of result) (world_of f (record {
          written = K.written sink.old;
          after = K.written sink.new;
          faults = (K.faults sink.old, K.faults sink.new);
        }) (since (K.history sink.old) (K.history sink.new))) (record {
          listens = since (Q.history polls.old) (Q.history polls.new);
          faults = (Q.faults polls.old, Q.faults polls.new);
        }) job.now }
    ensures polls { Continues (Q.history polls.old) (Q.history polls.new) }
    ensures sink { Continues (K.history sink.old) (K.history sink.new) }
{
    let Ok(port) = polls.bind(job.port) else {
        return Err(Exit::ListenFault);
    };
    match write_port(alloc, port, sink) {
        PortLine::Written => serve_tasks_and_end(rt, alloc, seed, config, job, tasks, sink, polls),
        PortLine::Unwritten => Err(Exit::WriteFault),
        PortLine::NoMemory => Err(Exit::OutOfMemory),
    }
}
