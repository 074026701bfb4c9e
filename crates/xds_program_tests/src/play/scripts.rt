// Scripts of all commands, their bad lines and their comments.
use crate::program::{Run, told};
use std::test::Fail;
use xds_cases::cases::hold_stories;

#[test]
fn scripts_are_played(rt: HostRuntime) -> Result<(), Fail> {
    hold_stories::<Run, HostRuntime>(
        &rt,
        r#"play
replica 1
replica 2
put 1 {"@type":"CDS","name":"a"}
snapshot 1
delete 1 cluster a
merge 1 1
merge 1 1
content 1 cluster
merge 2 1
content 2 cluster
 => 0 content 1 cluster 0~
    content 2 cluster 1~
    1-1 {"@type":"CDS","name":"a"}~

play
 => 0 

play
replica 1
replica 2
put 1 {"@type":"CDS","name":"a","x":1}
put 2 {"@type":"CDS","name":"a","x":2}
snapshot 1
snapshot 2
merge 1 2
merge 1 1
merge 1 2
merge 2 1
merge 2 1
merge 2 2
content 1 cluster
content 2 cluster
 => 0 content 1 cluster 1~
    1-2 {"@type":"CDS","name":"a","x":2}~
    content 2 cluster 1~
    1-2 {"@type":"CDS","name":"a","x":2}~

play
replica 1
replica 2
client 1 sotw
put 1 {"@type":"RDS","name":"a"}
put 1 {"@type":"RDS","name":"b"}
names 1 route a
connect 1 1
up 1
poll 1
down 1
up 1
put 1 {"@type":"RDS","name":"a","x":2}
poll 1 route
names 1 route a b
up 1
poll 1 route
view 1 route
down 1
up 1
poll 1 route
down 1
up 1
view 1 route
 => 0 view 1 route open 1~
    {"@type":"RDS","name":"a"}~
    view 1 route settled 2~
    {"@type":"RDS","name":"a","x":2}~
    {"@type":"RDS","name":"b"}~

play
replica 1
replica 2
client 1 delta
change 1 cluster +*
put 1 {"@type":"CDS","name":"n"}
connect 1 1
up 1
poll 1
change 1 cluster -*
change 1 cluster +*
down 1
delete 1 cluster n
up 1
up 1
up 1
view 1 cluster
poll 1
down 1
view 1 cluster
up 1
view 1 cluster
 => 0 view 1 cluster open 1~
    1-1 {"@type":"CDS","name":"n"}~
    view 1 cluster open 0~
    view 1 cluster settled 0~

play --
content 1 route
 => 0 none~

play
client 7 sotw
view 7 route
view 8 route => 0 view 7 route down 0~
    none~"#,
    )
}

#[test]
fn the_first_bad_line_of_a_script_is_told(rt: HostRuntime) -> Result<(), Fail> {
    hold_stories::<Run, HostRuntime>(
        &rt,
        r#"play
# a comment~
replica 1
 # no comment
 => 1 line 4: 21 BadScript~

play
replica 01
 => 1 line 1: 21 BadScript~

play
replica 1
replica 2
put 1 {"@type":"CDS"}
 => 1 line 3: 21 BadScript~

play
replica  1
 => 1 line 1: 21 BadScript~

play
replica 1
replica 2
up 1
upp 1
 => 1 line 4: 21 BadScript~

play
client 1 delta
view 1 cluster
up 4294967296
down 0
 => 1 line 3: 21 BadScript~

play
replica 1
putin 1  {"@type":"CDS","name":"a"}
 => 1 line 2: 21 BadScript~

play
replica 1
putin 1 g1,,g2 {"@type":"CDS","name":"a"}
 => 1 line 2: 21 BadScript~

play
replica 1
putin 1 g0,g1,g2,g3,g4,g5,g6,g7,g8,g9,g10,g11,g12,g13,g14,g15,g16,g17,g18,g19,g20,g21,g22,g23,g24,
    g25,g26,g27,g28,g29,g30,g31,g32,g33,g34,g35,g36,g37,g38,g39,g40,g41,g42,g43,g44,g45,g46,g47,g48,
    g49,g50,g51,g52,g53,g54,g55,g56,g57,g58,g59,g60,g61,g62,g63,g64 {"@type":"CDS","name":"a"}
 => 1 line 2: 21 BadScript~

play
client 1 sotw g1 g2
 => 1 line 1: 21 BadScript~

play
client 1 sotw 
 => 1 line 1: 21 BadScript~

play
replica 1
putin 1 g1
 => 1 line 2: 21 BadScript~

play
replica 1
putin 1 {"@type":"CDS","name":"a"}
 => 1 line 2: 21 BadScript~"#,
    )
}

#[test]
fn a_comment_may_hold_any_bytes(rt: HostRuntime) -> Result<(), Fail> {
    let played = told(rt.alloc(), "play", b"#\xff\xfe\ncontent 1 route\n")?;
    assert_eq!(rt; played.as_str(), "0 none~");
    let refused = told(rt.alloc(), "play", b"content 1 route\n \xff\n")?;
    assert_eq!(rt;
        refused.as_str(),
        "1 line 2: 21 BadScript~line 2: not UTF-8~"
    );
    Ok(())
}
