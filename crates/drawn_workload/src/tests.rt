use crate::{Draws, OfDraws, gen_line, gen_settings, generate};
use reply_places::Joined;
use serve_texts::Replies;
use std::alloc::{AllocError, Global};
use std::test::Fail;
use tile_source::{Image, Tile};

#[test]
fn draws_from_nothing(rt: HostRuntime) -> Result<(), Fail> {
    let mut draws = Draws::new(0);
    assert!(rt; draws.draw() == 167_951_807 && draws.draw() == 218_396_424);
    let mut draws = Draws::new(0);
    let image = Image::of_draws(rt.alloc(), &mut draws)?;
    assert!(rt; image.sample(0, 0) == 191 && image.sample(1, 0) == 8);
    let request = draws.request();
    assert!(rt; request.client == 1 && request.tile == Tile { z: 2, x: 0, y: 0 });
    Ok(())
}

#[test]
fn a_workload_is_drawn_from_0(rt: HostRuntime) -> Result<(), Fail> {
    assert!(rt; gen_settings().limit == 128);
    let drawn = generate(rt.alloc(), 0)?;
    assert!(rt; drawn.image.sample(0, 0) == 191 && drawn.image.sample(1, 0) == 8);
    assert!(rt; drawn.image.width() == 640 && drawn.image.height() == 480);
    assert!(rt; drawn.requests.len() == 512 && drawn.requests.get(0).is_some());
    Ok(())
}

#[test]
fn replies_are_told_in_a_line(rt: HostRuntime) -> Result<(), Fail> {
    let bytes = ones(rt.alloc(), 512 * 65_551)?;
    let replies = Replies::from_joined(Joined::copy_of(rt.alloc(), &bytes)?);
    let line = gen_line(rt.alloc(), 0, &replies)?;
    assert!(rt; line.as_slice() == b"gen 0 tiles 512 bytes 33562112 sum 33562112\n".as_slice());
    Ok(())
}

fn ones(alloc: Global, count: usize) -> Result<Vec<u8>, AllocError> {
    Vec::from_elem(alloc, 1, count)
}
