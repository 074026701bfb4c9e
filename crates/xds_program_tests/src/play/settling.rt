// Clients that a script settles.
use crate::program::Run;
use std::test::Fail;
use xds_cases::cases::hold_stories;

// rule: refused-offer
#[test]
fn clients_are_settled(rt: HostRuntime) -> Result<(), Fail> {
    hold_stories::<Run, HostRuntime>(
        &rt,
        r#"play
replica 1
replica 2
client 1 delta
change 1 route +*
put 1 {"@type":"RDS","name":"q"}
connect 1 1
settle 1 route
view 1 route
change 1 route +q -*
settle 1 route
view 1 route
 => 0 view 1 route settled 0~
    view 1 route settled 1~
    1-1 {"@type":"RDS","name":"q"}~

play
replica 1
replica 2
client 1 delta
connect 1 1
lose 1
connect 1 2
view 1 cluster
settle 1 cluster
view 1 route
 => 0 view 1 cluster settled 0~
    view 1 route settled 0~

play
replica 1
replica 2
up 1
down 1
poll 1
lose 1
connect 1 1
merge 1 1
snapshot 9
delete 1 cluster a
client 1 delta
client 1 sotw
replica 1
names 1 cluster a
change 1 cluster +a
connect 1 9
connect 1 1
connect 1 2
down 1
settle 2 cluster
view 2 cluster
content 9 cluster
settle 1 cluster
view 1 cluster
 => 0 none~
    none~
    view 1 cluster settled 0~

play
replica 1
replica 2
client 1 delta
change 1 listener +*
change 1 cluster +*
change 1 endpoint +e
change 1 route +r
put 1 {"@type":"CDS","name":"c"}
put 1 {"@type":"EDS","clusterName":"e"}
put 1 {"@type":"LDS","name":"l"}
put 1 {"@type":"RDS","name":"r"}
connect 1 1
poll 1
up 1
poll 1
up 1
up 1
poll 1
up 1
poll 1
poll 1
down 1
view 1 cluster
view 1 endpoint
down 1
view 1 endpoint
settle 1 listener
settle 1 route
view 1 listener
view 1 route
 => 0 view 1 cluster open 1~
    1-1 {"@type":"CDS","name":"c"}~
    view 1 endpoint open 0~
    view 1 endpoint open 1~
    1-1 {"@type":"EDS","clusterName":"e"}~
    view 1 listener settled 1~
    1-1 {"@type":"LDS","name":"l"}~
    view 1 route settled 1~
    1-1 {"@type":"RDS","name":"r"}~

play
replica 1
replica 2
client 1 sotw
names 1 listener *
put 1 {"@type":"LDS","name":"l"}
connect 1 1
settle 1 listener
view 1 listener
lose 1
view 1 listener
delete 1 listener l
connect 1 1
view 1 listener
settle 1 listener
view 1 listener
 => 0 view 1 listener settled 1~
    {"@type":"LDS","name":"l"}~
    view 1 listener down 1~
    {"@type":"LDS","name":"l"}~
    view 1 listener open 1~
    {"@type":"LDS","name":"l"}~
    view 1 listener settled 0~

play
replica 1
replica 2
put 1 {"@type":"CDS","name":"A"}
put 1 {"@type":"CDS","name":"B"}
snapshot 1
put 1 {"@type":"CDS","name":"A"}
put 1 {"@type":"CDS","name":"B"}
client 1 delta
change 1 cluster +*
connect 1 1
settle 1 cluster
view 1 cluster
lose 1
merge 2 1
delete 2 cluster B
connect 1 2
view 1 cluster
settle 1 cluster
view 1 cluster
 => 0 view 1 cluster settled 2~
    3-1 {"@type":"CDS","name":"A"}~
    4-1 {"@type":"CDS","name":"B"}~
    view 1 cluster open 2~
    3-1 {"@type":"CDS","name":"A"}~
    4-1 {"@type":"CDS","name":"B"}~
    view 1 cluster settled 1~
    1-1 {"@type":"CDS","name":"A"}~

play
replica 1
replica 2
client 1 delta
change 1 cluster +*
put 1 {"@type":"CDS","name":"B"}
connect 1 1
settle 1 cluster
view 1 cluster
put 1 {"@type":"CDS","name":"A","reject":true}
delete 1 cluster B
poll 1
down 1
up 1
view 1 cluster
poll 1
settle 1 cluster
view 1 cluster
put 1 {"@type":"CDS","name":"A"}
poll 1
down 1
view 1 cluster
up 1
view 1 cluster
 => 0 view 1 cluster settled 1~
    1-1 {"@type":"CDS","name":"B"}~
    view 1 cluster open 1~
    1-1 {"@type":"CDS","name":"B"}~
    view 1 cluster open 1~
    1-1 {"@type":"CDS","name":"B"}~
    view 1 cluster open 1~
    4-1 {"@type":"CDS","name":"A"}~
    view 1 cluster settled 1~
    4-1 {"@type":"CDS","name":"A"}~

play
replica 1
replica 2
client 1 sotw
names 1 cluster *
put 1 {"@type":"CDS","name":"a"}
put 1 {"@type":"CDS","name":"b"}
connect 1 1
settle 1 cluster
view 1 cluster
delete 1 cluster a
view 1 cluster
settle 1 cluster
view 1 cluster
names 1 cluster
view 1 cluster
settle 1 cluster
view 1 cluster
 => 0 view 1 cluster settled 2~
    {"@type":"CDS","name":"a"}~
    {"@type":"CDS","name":"b"}~
    view 1 cluster open 2~
    {"@type":"CDS","name":"a"}~
    {"@type":"CDS","name":"b"}~
    view 1 cluster settled 1~
    {"@type":"CDS","name":"b"}~
    view 1 cluster open 0~
    view 1 cluster settled 0~

play
replica 1
replica 2
client 1 sotw
names 1 route a b
put 1 {"@type":"RDS","name":"a"}
put 1 {"@type":"RDS","name":"b"}
connect 1 1
settle 1 route
view 1 route
delete 1 route a
settle 1 route
view 1 route
names 1 route b
settle 1 route
view 1 route
 => 0 view 1 route settled 2~
    {"@type":"RDS","name":"a"}~
    {"@type":"RDS","name":"b"}~
    view 1 route settled 2~
    {"@type":"RDS","name":"a"}~
    {"@type":"RDS","name":"b"}~
    view 1 route settled 1~
    {"@type":"RDS","name":"b"}~

play
replica 1
replica 2
client 1 delta
change 1 cluster +*
put 1 {"@type":"CDS","name":"a","x":1}
put 2 {"@type":"CDS","name":"a","x":2}
snapshot 1
snapshot 2
merge 1 2
merge 2 1
connect 1 1
settle 1 cluster
view 1 cluster
lose 1
put 2 {"@type":"CDS","name":"b"}
connect 1 2
view 1 cluster
settle 1 cluster
view 1 cluster
content 1 cluster
 => 0 view 1 cluster settled 1~
    1-2 {"@type":"CDS","name":"a","x":2}~
    view 1 cluster open 1~
    1-2 {"@type":"CDS","name":"a","x":2}~
    view 1 cluster settled 2~
    1-2 {"@type":"CDS","name":"a","x":2}~
    2-2 {"@type":"CDS","name":"b"}~
    content 1 cluster 1~
    1-2 {"@type":"CDS","name":"a","x":2}~"#,
    )
}
