//! The series of a run, gathered from the lines of its report.
use crate::listing::{ListLine, list_line};
use crate::replies::{ReplyCounts, ReplyKind};
use crate::run::{Point, Round, Run, Series};
use lvs_lines::cut_line;
use lvs_types::{NoMemory, ReportLine, Shown};
use std::alloc::Global;
use std::collections::BTreeMap;

/// What was gathered so far. Acts and listings before the first head belong to no round.
#[derive(Drop)]
struct Gatherer {
    alloc: Global,
    run: Run,
    // The place of each server among the run's, by its name.
    places: BTreeMap<String, usize>,
    // How many listings there were.
    listings: u64,
    // The service whose servers a listing has now, and the name of a server.
    service: String,
    name: String,
}

impl Gatherer {
    /// A reply of the last round.
    fn take_reply(&mut self, reply: &[u8]) {
        let Some(round) = self.run.rounds.last_mut() else {
            return;
        };
        if let Some(kind) = ReplyKind::of_reply(reply) {
            round.replies.add(kind);
        }
        match reply {
            b"ok" => round.edited = true,
            b"swept 0" => {}
            [b's', b'w', b'e', b'p', b't', b' ', ..] => round.swept = true,
            b"learn accepted" => round.learnt = true,
            _ => {}
        }
    }

    /// The servers of a service follow.
    fn begin_service(&mut self, protocol: &str, place: &str) -> Result<(), NoMemory> {
        self.service.clear();
        self.service.push_str(protocol)?;
        self.service.push_str(" ")?;
        self.service.push_str(place)?;
        Ok(())
    }

    /// The place of a server of the service, a new one where it wasn't listed before.
    fn place_of(&mut self, server: &str) -> Result<usize, NoMemory> {
        self.name.clear();
        self.name.push_str(server)?;
        self.name.push_str(" of ")?;
        self.name.push_str(&self.service)?;
        if let Some(place) = self.places.get(&self.name) {
            return Ok(*place);
        }
        let place = self.run.servers.len();
        self.run.servers.push(Series {
            name: self.name.clone()?,
            points: Vec::new(self.alloc),
            weight: 0,
        })?;
        self.places.insert(self.name.clone()?, place)?;
        Ok(place)
    }

    /// A line of the listing of a round.
    fn take_list_line(&mut self, moment: u64, line: &[u8]) -> Result<(), NoMemory> {
        match list_line(self.alloc, line)? {
            ListLine::Other => Ok(()),
            ListLine::Service { protocol, place } => self.begin_service(protocol, place),
            ListLine::Server {
                place,
                active,
                inactive,
            } => {
                let place = self.place_of(place)?;
                let Some(series) = self.run.servers.get_mut(place) else {
                    return Ok(());
                };
                series.push(Point {
                    moment,
                    listing: self.listings,
                    active,
                    inactive,
                })
            }
        }
    }

    /// A `list` text of the last round.
    fn take_list(&mut self, text: &[u8]) -> Result<(), NoMemory> {
        let Some(round) = self.run.rounds.last() else {
            return Ok(());
        };
        let moment = round.moment;
        self.listings = self.listings.saturating_add(1);
        let mut rest = text;
        while let Some((line, after)) = cut_line(rest) {
            self.take_list_line(moment, line)?;
            rest = after;
        }
        Ok(())
    }

    /// The next line of the report.
    fn take(&mut self, line: &ReportLine) -> Result<(), NoMemory> {
        match line {
            ReportLine::Head { moment, .. } => self.run.rounds.push(Round {
                moment: *moment,
                replies: ReplyCounts::default(),
                edited: false,
                swept: false,
                learnt: false,
            })?,
            ReportLine::Act { reply, .. } => self.take_reply(reply.as_slice()),
            ReportLine::Shown(shown) => {
                if shown.kind == Shown::List {
                    self.take_list(shown.text.as_slice())?;
                }
            }
        }
        Ok(())
    }
}

/// The rounds and the servers of a report: a round for each head, and a point of a server for each
/// line of a `list` text that names it.
pub fn gather(alloc: Global, lines: &[ReportLine]) -> Result<Run, NoMemory> {
    let mut gatherer = Gatherer {
        alloc,
        run: Run {
            rounds: Vec::new(alloc),
            servers: Vec::new(alloc),
        },
        places: BTreeMap::new(alloc),
        listings: 0,
        service: String::new(alloc),
        name: String::new(alloc),
    };
    for line in lines {
        gatherer.take(line)?;
    }
    Ok(gatherer.run)
}
