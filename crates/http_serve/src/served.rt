// A link, before and after it is served.
ghost use Rattle.std.specs.Prelude.{◌≡◌, List};
ghost use Rattle.http_endpoint.specs.Answers.{Asked};
ghost use Rattle.rate_io.specs.Listeners.{IsNewLink};
ghost use Rattle.http_serve.specs.Service.{IsServed};

use http_endpoint::{Buffers, Checks, LinkEnd, serve_link};
use rate_io::Link;
use std::alloc::Global;
use std::marker::Model;
use std::sync::Wait;

/// A link that was not used yet.
#[derive(Drop)]
pub struct Fresh<N: Link + Drop> {
    pub link: N,
    ghost unused: { IsNewLink (N.state link) },
}

/// A link that was served and shut, under its number. Contracts see it as a `Service`.
#[derive(Drop)]
pub struct Served<N: Link + Drop> {
    pub(crate) number: u32,
    pub(crate) link: N,
    pub(crate) link_end: LinkEnd,
}

impl<N: Link + Drop> Model for Served<N> {
    ghost use Rattle.std.specs.Prelude.{◌≡◌, true};
    ghost use Rattle.http_serve.specs.Service.{Service};

    ghost Value = { Service };

    ghost view = { λ s. record { number = s.number; calls = (N.state s.link).history; link_end = s.link_end } };

    ghost invariant = { λ s. (N.state s.link).is_shut ≡ true };
}

/// Serves a link to its end, and shuts it.
pub(crate) fn serve_one<R: Wait, N: Link + Drop, K: Checks>(
    rt: &R,
    alloc: Global,
    checks: &mut K,
    number: u32,
    fresh: Fresh<N>,
    buffers: &mut Buffers,
) -> Served<N>
    ensures number { result.number ≡ number }
    ensures served { (asked : List Asked) × IsServed K.answers checks.old result asked checks.new }
{
    let Fresh { mut link } = fresh;
    let link_end = serve_link(rt, alloc, checks, &mut link, buffers);
    link.shut();
    Served {
        number,
        link,
        link_end,
    }
}
