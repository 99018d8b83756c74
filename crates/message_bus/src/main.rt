//! A bus: topics know their subscribers by weak pointers, and who drops its subscriber is unsubscribed.
#![tactic(auto)]

use pointers::{Desk, Domain, Fault, Program, Shared, SharedCell, Team, run};
use std::alloc::Global;
use std::io;
use std::sync::atomic::{AtomicU32, Ordering};
use std::sync::{Arc, Mutex, Wait};
use std::thread::Threads;

/// The messages of a subscriber. Its end counts them.
struct Inbox {
    messages: Vec<u64>,
    received: Arc<AtomicU32>,
}

impl Drop for Inbox {
    fn drop(self) {
        let Self { messages, received } = self;
        let count = u32::try_from(messages.len()).unwrap_or(u32::MAX);
        received.fetch_add(count, Ordering::SeqCst);
    }
}

/// A subscriber is an object with an inbox, a node of a topic's list one without.
type Subscriber = Option<Inbox>;

/// A topic, whose list of subscribers lies in a free cell.
#[derive(Drop)]
struct Topic {
    subscribers: SharedCell,
    alone: Mutex<()>,
}

impl Topic {
    fn new(subscribers: SharedCell) -> Topic {
        let alone = Mutex::new(());
        Topic { subscribers, alone }
    }

    fn subscribe<D: Domain<Value = Subscriber>, R: Wait>(
        &self,
        rt: &R,
        mine: &Shared<'_, D>,
    ) -> Result<(), Fault> {
        let _alone = self.alone.lock(rt);
        let list = mine.desk().cell(self.subscribers).weak_list();
        list.push_front(rt, mine.downgrade()?)
    }

    /// Each subscriber that is there gets the message, and the topic forgets the others: how many took it.
    fn publish<D: Domain<Value = Subscriber>, R: Wait>(
        &self,
        rt: &R,
        desk: &Desk<D>,
        message: u64,
    ) -> Result<u32, Fault> {
        let _alone = self.alone.lock(rt);
        let mut told = 0u32;
        desk.cell(self.subscribers).weak_list().retain(rt, |known| {
            let Some(subscriber) = known.lock(rt)? else {
                return Ok(false);
            };
            told = told.saturating_add(tell(rt, &subscriber, message)?);
            Ok(true)
        })?;
        Ok(told)
    }
}

/// A subscriber gets the message: how many took it.
fn tell<D: Domain<Value = Subscriber>, R: Wait>(
    rt: &R,
    subscriber: &Shared<'_, D>,
    message: u64,
) -> Result<u32, Fault> {
    let took = subscriber.visit(rt, |it| take(it, message))?;
    Ok(u32::from(took))
}

/// The message comes into the inbox: whether there was room for it.
fn take(subscriber: &mut Subscriber, message: u64) -> bool {
    match subscriber {
        Some(inbox) => inbox.messages.push(message).is_ok(),
        None => false,
    }
}

#[derive(Drop)]
struct Bus {
    alloc: Global,
    news: Topic,
    weather: Topic,
    told: AtomicU32,
    received: Arc<AtomicU32>,
}

impl Bus {
    /// A new subscriber to the news, and to the weather in each second round.
    fn subscriber<'t, D: Domain<Value = Subscriber>, R: Wait>(
        &self,
        rt: &R,
        desk: &'t Desk<D>,
        round: u64,
    ) -> Result<Shared<'t, D>, Fault> {
        let messages = Vec::new(self.alloc);
        let received = self.received.clone()?;
        let mine = desk.new(Some(Inbox { messages, received }))?;
        self.news.subscribe(rt, &mine)?;
        if round % 2 == 1 {
            self.weather.subscribe(rt, &mine)?;
        }
        Ok(mine)
    }

    /// Twenty subscribers, one after another, with five messages each while they are there.
    fn talk<D: Domain<Value = Subscriber>, R: Wait>(
        &self,
        rt: &R,
        desk: &Desk<D>,
    ) -> Result<(), Fault> {
        for round in 0..20u64 {
            let _mine = self.subscriber(rt, desk, round)?;
            for message in 0..5u64 {
                let topic = if message % 2 == 0 {
                    &self.news
                } else {
                    &self.weather
                };
                let told = topic.publish(rt, desk, message)?;
                self.told.fetch_add(told, Ordering::SeqCst);
            }
        }
        Ok(())
    }
}

impl<R: Threads + Wait + Sync> Program<Subscriber, R> for Bus {
    fn work<D: Domain<Value = Subscriber>>(
        &self,
        rt: &R,
        _number: usize,
        desk: &Desk<D>,
    ) -> Result<(), Fault> {
        self.talk(rt, desk)
    }
}

/// The bus, with four threads on it.
fn play<R: Threads + Wait + Sync + Print + AllocGlobal>(rt: &R) -> Result<(), Fault> {
    let bus = Bus {
        alloc: rt.alloc(),
        news: Topic::new(SharedCell(0)),
        weather: Topic::new(SharedCell(1)),
        told: AtomicU32::new(0),
        received: Arc::new(rt.alloc(), AtomicU32::new(0))?,
    };
    let team = Team {
        workers: 4,
        pointers: 12,
    };
    match run(rt, rt.alloc(), team.shape(256, 2, 0), team, &bus) {
        Ok(ran) => {
            let told = bus.told.load(Ordering::SeqCst);
            let received = bus.received.load(Ordering::SeqCst);
            let all = if told == received { "all" } else { "not all" };
            println!(rt; "{all} that was told was received")?;
            println!(rt; "{} workers, {} faults", ran.workers, ran.failed.len())?;
        }
        Err(why) => println!(rt; "not run: {why}")?,
    }
    Ok(())
}

fn main(rt: HostRuntime) -> io::Result<()> {
    match play(&rt) {
        Ok(()) => Ok(()),
        Err(why) => println!(&rt; "{why}"),
    }
}
