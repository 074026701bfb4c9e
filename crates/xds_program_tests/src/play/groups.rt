// What clients of groups see, and secrets.
use crate::program::Run;
use std::test::Fail;
use xds_cases::cases::hold_stories;

// rule: star-covers, rule: groups
#[test]
fn groups_narrow_the_star(rt: HostRuntime) -> Result<(), Fail> {
    hold_stories::<Run, HostRuntime>(
        &rt,
        r#"play
replica 1
putin 1 g1 {"@type":"CDS","name":"a"}
put 1 {"@type":"CDS","name":"b"}
putin 1 g2 {"@type":"CDS","name":"c"}
client 1 delta g1
change 1 cluster +*
connect 1 1
settle 1 cluster
view 1 cluster
change 1 cluster +c
settle 1 cluster
view 1 cluster
change 1 cluster -c
settle 1 cluster
view 1 cluster
putin 1 g2 {"@type":"CDS","name":"a"}
settle 1 cluster
view 1 cluster
 => 0 view 1 cluster settled 2~
    1-1 {"@type":"CDS","name":"a"}~
    2-1 {"@type":"CDS","name":"b"}~
    view 1 cluster settled 3~
    1-1 {"@type":"CDS","name":"a"}~
    2-1 {"@type":"CDS","name":"b"}~
    3-1 {"@type":"CDS","name":"c"}~
    view 1 cluster settled 2~
    1-1 {"@type":"CDS","name":"a"}~
    2-1 {"@type":"CDS","name":"b"}~
    view 1 cluster settled 1~
    2-1 {"@type":"CDS","name":"b"}~

play
replica 1
putin 1 g1 {"@type":"CDS","name":"a"}
put 1 {"@type":"CDS","name":"b"}
client 1 sotw
names 1 cluster *
connect 1 1
settle 1 cluster
view 1 cluster
put 1 {"@type":"CDS","name":"a"}
settle 1 cluster
view 1 cluster
 => 0 view 1 cluster settled 1~
    {"@type":"CDS","name":"b"}~
    view 1 cluster settled 2~
    {"@type":"CDS","name":"a"}~
    {"@type":"CDS","name":"b"}~

play
replica 1
putin 1 g1,g2 {"@type":"CDS","name":"a"}
putin 1 g1 {"@type":"CDS","name":"b"}
client 1 sotw g1
names 1 listener *
names 1 cluster *
connect 1 1
settle 1 cluster
view 1 cluster
putin 1 g2 {"@type":"CDS","name":"a"}
settle 1 cluster
view 1 cluster
 => 0 view 1 cluster settled 2~
    {"@type":"CDS","name":"a"}~
    {"@type":"CDS","name":"b"}~
    view 1 cluster settled 1~
    {"@type":"CDS","name":"b"}~

play
replica 1
replica 2
putin 1 g1 {"@type":"CDS","name":"a"}
putin 2 g2 {"@type":"CDS","name":"a"}
snapshot 1
snapshot 2
merge 1 2
merge 2 1
client 1 delta g2
change 1 cluster +*
connect 1 1
settle 1 cluster
view 1 cluster
content 1 cluster
 => 0 view 1 cluster settled 1~
    1-2 {"@type":"CDS","name":"a"}~
    content 1 cluster 1~
    1-2 {"@type":"CDS","name":"a"}~

play
replica 1
putin 1 g0,g1,g2,g3,g4,g5,g6,g7,g8,g9,g10,g11,g12,g13,g14,g15,g16,g17,g18,g19,g20,g21,g22,g23,g24,
    g25,g26,g27,g28,g29,g30,g31,g32,g33,g34,g35,g36,g37,g38,g39,g40,g41,g42,g43,g44,g45,g46,g47,g48,
    g49,g50,g51,g52,g53,g54,g55,g56,g57,g58,g59,g60,g61,g62,g63,g0,g1,g2,g3,g4,g5,g6,g7,g8,g9,g10,
    g11,g12,g13,g14,g15,g16,g17,g18,g19,g20,g21,g22,g23,g24,g25,g26,g27,g28,g29,g30,g31,g32,g33,g34,
    g35,g36,g37,g38,g39,g40,g41,g42,g43,g44,g45,g46,g47,g48,g49,g50,g51,g52,g53,g54,g55,g56,g57,g58,
    g59,g60,g61,g62,g63 {"@type":"CDS","name":"a"}
content 1 cluster
 => 0 content 1 cluster 1~
    1-1 {"@type":"CDS","name":"a"}~"#,
    )
}

#[test]
fn secrets_are_played(rt: HostRuntime) -> Result<(), Fail> {
    hold_stories::<Run, HostRuntime>(
        &rt,
        r#"play
replica 1
client 1 delta
change 1 secret +s
change 1 route +r
put 1 {"@type":"SDS","name":"s"}
put 1 {"@type":"RDS","name":"r"}
connect 1 1
up 1
up 1
poll 1
down 1
view 1 route
view 1 secret
poll 1
down 1
view 1 secret
snapshot 1
replica 2
merge 2 1
content 2 secret
 => 0 view 1 route open 1~
    1-1 {"@type":"RDS","name":"r"}~
    view 1 secret open 0~
    view 1 secret open 1~
    1-1 {"@type":"SDS","name":"s"}~
    content 2 secret 1~
    1-1 {"@type":"SDS","name":"s"}~

play
replica 1
replica 2
client 1 delta
client 2 sotw
change 1 secret +s
names 2 secret s t
put 1 {"@type":"SDS","name":"s"}
put 1 {"@type":"SDS","name":"t"}
connect 1 1
connect 2 1
settle 1 secret
settle 2 secret
view 1 secret
view 2 secret
delete 1 secret s
settle 1 secret
settle 2 secret
view 1 secret
view 2 secret
content 1 secret
 => 0 view 1 secret settled 1~
    1-1 {"@type":"SDS","name":"s"}~
    view 2 secret settled 2~
    {"@type":"SDS","name":"s"}~
    {"@type":"SDS","name":"t"}~
    view 1 secret settled 0~
    view 2 secret settled 2~
    {"@type":"SDS","name":"s"}~
    {"@type":"SDS","name":"t"}~
    content 1 secret 1~
    2-1 {"@type":"SDS","name":"t"}~"#,
    )
}
