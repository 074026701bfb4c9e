// Clients that poll over HTTP.
use crate::program::Run;
use std::test::Fail;
use xds_cases::cases::hold_stories;

// rule: not-modified
#[test]
fn clients_poll(rt: HostRuntime) -> Result<(), Fail> {
    hold_stories::<Run, HostRuntime>(
        &rt,
        r#"play
replica 1
client 1 rest
names 1 cluster *
put 1 {"@type":"CDS","name":"a"}
restlost 1 1 cluster
view 1 cluster
rest 1 1 cluster
view 1 cluster
 => 0 view 1 cluster rest 0~
    view 1 cluster rest 1~
    {"@type":"CDS","name":"a"}~

play
replica 1
replica 2
client 1 rest
names 1 listener *
put 1 {"@type":"LDS","name":"l"}
put 2 {"@type":"LDS","name":"m"}
rest 1 1 listener
view 1 listener
rest 1 2 listener
view 1 listener
rest 1 9 listener
view 1 listener
 => 0 view 1 listener rest 1~
    {"@type":"LDS","name":"l"}~
    view 1 listener rest 1~
    {"@type":"LDS","name":"m"}~
    view 1 listener rest 1~
    {"@type":"LDS","name":"m"}~

play
replica 1
client 1 rest
names 1 cluster *
put 1 {"@type":"CDS","name":"a"}
rest 1 1 cluster
names 1 cluster a
names 1 cluster *
view 1 cluster
rest 1 1 cluster
view 1 cluster
 => 0 view 1 cluster rest 1~
    {"@type":"CDS","name":"a"}~
    view 1 cluster rest 1~
    {"@type":"CDS","name":"a"}~

play
replica 1
client 1 rest
names 1 cluster *
put 1 {"@type":"CDS","name":"a"}
put 1 {"@type":"CDS","name":"b"}
rest 1 1 cluster
delete 1 cluster a
view 1 cluster
rest 1 1 cluster
view 1 cluster
 => 0 view 1 cluster rest 2~
    {"@type":"CDS","name":"a"}~
    {"@type":"CDS","name":"b"}~
    view 1 cluster rest 1~
    {"@type":"CDS","name":"b"}~

play
replica 1
client 1 rest
names 1 cluster *
connect 1 1
up 1
lose 1
settle 1 cluster
change 1 cluster +a
view 1 cluster
 => 0 view 1 cluster rest 0~

play
replica 1
putin 1 g1 {"@type":"CDS","name":"a"}
put 1 {"@type":"CDS","name":"b"}
client 1 rest g1
names 1 cluster *
rest 1 1 cluster
view 1 cluster
putin 1 g2 {"@type":"CDS","name":"a"}
rest 1 1 cluster
view 1 cluster
client 2 rest
names 2 cluster *
rest 2 1 cluster
view 2 cluster
 => 0 view 1 cluster rest 2~
    {"@type":"CDS","name":"a"}~
    {"@type":"CDS","name":"b"}~
    view 1 cluster rest 1~
    {"@type":"CDS","name":"b"}~
    view 2 cluster rest 1~
    {"@type":"CDS","name":"b"}~

play
replica 1
client 1 rest
names 1 cluster *
put 1 {"@type":"CDS","name":"a"}
rest 1 1 cluster
put 1 {"@type":"CDS","name":"b","reject":true}
rest 1 1 cluster
view 1 cluster
put 1 {"@type":"CDS","name":"b"}
rest 1 1 cluster
view 1 cluster
 => 0 view 1 cluster rest 1~
    {"@type":"CDS","name":"a"}~
    view 1 cluster rest 2~
    {"@type":"CDS","name":"a"}~
    {"@type":"CDS","name":"b"}~

play
replica 1
client 1 rest
names 1 route a b
put 1 {"@type":"RDS","name":"a"}
put 1 {"@type":"RDS","name":"b"}
rest 1 1 route
view 1 route
delete 1 route a
rest 1 1 route
view 1 route
names 1 route b
view 1 route
 => 0 view 1 route rest 2~
    {"@type":"RDS","name":"a"}~
    {"@type":"RDS","name":"b"}~
    view 1 route rest 2~
    {"@type":"RDS","name":"a"}~
    {"@type":"RDS","name":"b"}~
    view 1 route rest 1~
    {"@type":"RDS","name":"b"}~

play
replica 1
client 1 rest
names 1 cluster *
put 1 {"@type":"CDS","name":"a"}
rest 1 1 cluster
rest 1 1 cluster
view 1 cluster
 => 0 view 1 cluster rest 1~
    {"@type":"CDS","name":"a"}~

play
replica 1
client 1 rest
put 1 {"@type":"CDS","name":"a"}
rest 1 1 cluster
names 1 cluster
rest 1 1 cluster
view 1 cluster
 => 0 view 1 cluster rest 0~

play
replica 1
client 1 rest
names 1 cluster *
put 1 {"@type":"CDS","name":"a"}
rest 1 1 cluster
rest 1 1 cluster
view 1 cluster
 => 0 view 1 cluster rest 1~
    {"@type":"CDS","name":"a"}~

play
replica 1
client 1 rest
names 1 cluster a
put 1 {"@type":"CDS","name":"a"}
rest 1 1 cluster
names 1 cluster a b
put 1 {"@type":"CDS","name":"b"}
rest 1 1 cluster
view 1 cluster
names 1 cluster b
rest 1 1 cluster
view 1 cluster
 => 0 view 1 cluster rest 2~
    {"@type":"CDS","name":"a"}~
    {"@type":"CDS","name":"b"}~
    view 1 cluster rest 1~
    {"@type":"CDS","name":"b"}~

play
replica 1
client 1 sotw
names 1 cluster *
put 1 {"@type":"CDS","name":"a"}
rest 1 1 cluster
view 1 cluster
 => 0 view 1 cluster down 0~

play
replica 1
client 1 rest
names 1 cluster *
rest 1 1
 => 1 line 4: 21 BadScript~

play
replica 1
client 1 rest
restlost 1 0 cluster
 => 1 line 3: 21 BadScript~

play
replica 1
client 1 rest
rest 1 1 clusters
 => 1 line 3: 21 BadScript~

play
replica 1
client 1 rest
rest 1 1 cluster a
 => 1 line 3: 21 BadScript~

play
client 1 rests
 => 1 line 1: 21 BadScript~"#,
    )
}
