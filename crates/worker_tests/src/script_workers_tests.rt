//! The lines of one script, cut into the events of its workers.
use graph_model::Event;
use script_text::Line;
use script_workers::workers_of;
use std::test::Fail;

#[test]
fn lines_go_to_their_workers(rt: HostRuntime) -> Result<(), Fail> {
    let lines = [
        Line::One(Event::Begin { s: 2 }),
        Line::One(Event::Force),
        Line::One(Event::Flip),
        Line::Commit { s: 2 },
        Line::One(Event::Flush { p: 3 }),
        Line::One(Event::Abort { s: 32 }),
        Line::One(Event::Scan),
    ];
    let mut text = String::new(rt.alloc());
    for worker in &workers_of(rt.alloc(), &lines, 5)? {
        for event in &worker.events {
            write!(text, "{} {} {event}; ", worker.number, worker.tries)?;
        }
    }
    assert_eq!(rt;
        text.as_str(),
        "2 5 2 begin; 2 5 2 seal; 2 5 force; 32 5 32 abort; 33 5 flip; 33 5 scan; 34 5 force; 34 5 flush 3; "
    );
    Ok(())
}
