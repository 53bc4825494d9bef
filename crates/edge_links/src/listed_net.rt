//! A net in memory that gives what it was handed.
ghost use Rattle.std.specs.Prelude.{◌≡◌};
ghost use Rattle.edge_links.specs.Counts.{nought};

use super::counts::Counts;
use super::links::{Net, NetFailed};
use super::memory_acceptor::MemoryAcceptor;
use super::memory_link::MemoryLink;
use std::collections::VecDeque;

/// What a listen gives: an acceptor at this port, or a failure.
#[derive(Debug, Drop)]
pub struct Listening {
    pub port: u16,
    pub acceptor: Option<MemoryAcceptor>,
}

/// What a dial gives: a link to this host and port, or a failure.
#[derive(Debug, Drop)]
pub struct Dialled {
    pub host: String,
    pub port: u16,
    pub link: Option<MemoryLink>,
}

/// Each call takes the next of its list. It fails where that is none, is another port or host than
/// the one asked for, or has nothing to give; what it gives has its counts at 0.
#[derive(Debug, Drop)]
pub struct ListedNet {
    listens: VecDeque<Listening>,
    dials: VecDeque<Dialled>,
    counts: Counts,
}

impl ListedNet {
    pub fn new(listens: Vec<Listening>, dials: Vec<Dialled>) -> Self
        ensures { ⟦<ListedNet as Net>⟧.counts result ≡ nought }
    {
        ListedNet {
            listens: VecDeque::from(listens),
            dials: VecDeque::from(dials),
            counts: Counts::new(),
        }
    }
}

impl Net for ListedNet {
    type Link = MemoryLink;

    type Acceptor = MemoryAcceptor;

    ghost counts = { λ n. n.counts };

    fn listen(&mut self, port: u16) -> Result<MemoryAcceptor, NetFailed> {
        if let Some(
            Listening {
                port: at,
                acceptor: Some(mut acceptor),
            },
        ) = self.listens.pop_front()
        {
            if at == port {
                acceptor.begin_anew();
                return Ok(acceptor);
            }
        }
        self.counts.fault();
        Err(NetFailed)
    }

    fn dial(&mut self, host: &str, port: u16) -> Result<MemoryLink, NetFailed> {
        if let Some(next) = self.dials.pop_front() {
            let Dialled {
                host: known,
                port: at,
                link,
            } = next;
            if let Some(mut link) = link {
                if known.as_str() == host && at == port {
                    link.begin_anew();
                    return Ok(link);
                }
            }
        }
        self.counts.fault();
        Err(NetFailed)
    }
}
