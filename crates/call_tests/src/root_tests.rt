use mh_model::place::Place;
use mh_roots::roots::Roots;

/// Lets a slot hold the place of its own number.
fn fill(roots: &mut Roots, slot: usize) {
    if slot < 144 {
        roots.set(slot, Some(Place(slot)));
    }
}

fn get(roots: &Roots, slot: usize) -> Option<Place> {
    if slot < 144 { roots.get(slot) } else { None }
}

/// All slots filled but those of the second session.
fn emptied() -> Roots {
    let mut roots = Roots::new();
    for slot in 0..144 {
        fill(&mut roots, slot);
    }
    roots.clear_session(1);
    roots
}

#[test]
fn slots_of_a_session(rt: HostRuntime) {
    let roots = emptied();
    let ends = [15, 16, 31, 32].map(|slot| get(&roots, slot));
    assert_eq!(rt; ends, [Some(Place(15)), None, None, Some(Place(32))]);
}
