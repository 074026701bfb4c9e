// How often what replies is asked for one post.
use std::alloc::Global;
use std::sync::Wait;
use std::sync::atomic::{AtomicU64, Ordering};
use std::test::Fail;
use xds_http::service::answer;
use xds_http::{Replies, Seats};
use xds_polls::HttpReply;
use xds_resource::Refusal;

// Replies by a status alone, and counts the seats that it made and the replies that it gave.
#[derive(Drop)]
struct Counting {
    seats: AtomicU64,
    replies: AtomicU64,
}

impl Replies for Counting {
    ghost use Rattle.std.specs.Prelude.{⊤};

    type Seat = u64;

    ghost replies = { λ _ _ _ _ _. ⊤ };

    fn reply<R: Wait>(
        &self,
        _rt: &R,
        _alloc: Global,
        _seat: &mut u64,
        _path: &str,
        _body: &[u8],
    ) -> HttpReply {
        self.replies.fetch_add(1, Ordering::SeqCst);
        HttpReply::without_body(404)
    }
}

impl Seats for Counting {
    ghost use Rattle.std.specs.Prelude.{⊤};

    ghost fresh = { λ _. ⊤ };

    fn seat<R: Wait>(&self, _rt: &R) -> Result<u64, Refusal> {
        Ok(self.seats.fetch_add(1, Ordering::SeqCst))
    }
}

#[test]
fn a_post_is_replied_to_once(rt: HostRuntime) -> Result<(), Fail> {
    let counting = Counting {
        seats: AtomicU64::new(0),
        replies: AtomicU64::new(0),
    };
    drop(answer(&rt, &counting, "/v3/discovery:clusters", b"{}"));
    let seats = counting.seats.load(Ordering::SeqCst);
    let replies = counting.replies.load(Ordering::SeqCst);
    assert_eq!(rt; seats, 1);
    assert_eq!(rt; replies, 1);
    Ok(())
}
