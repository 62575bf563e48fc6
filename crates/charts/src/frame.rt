// What every chart has: its size, its colours and shapes, the names of its rows, and the legend.
pub(crate) const HEAD: &str =
    "<svg xmlns='http://www.w3.org/2000/svg' width='1160' height='604' font-family='sans-serif' font-size='12'>
<style>path{fill:none}.r{stroke:#2b6cb0;stroke-width:10}.f{stroke:#d62728;stroke-width:5}.l{stroke:#2ca02c;stroke-width:2}.a{stroke:#ddd}.n{text-anchor:middle;fill:#666}.t{font-size:14}.w{stroke:#bbb}</style>
<defs>
<path id='o' d='M0 13l-4 -9h8z' style='fill:#111'/>
<path id='c' d='M-4 5h8v8h-8z' style='stroke:#7b3fa0;stroke-width:2'/>
<path id='x' d='M-4 4l8 9m0 -9l-8 9' style='stroke:#d62728;stroke-width:2'/>
<path id='e1' d='M0 1v46m-4 -27a4 4 0 0 0 8 0a4 4 0 0 0 -8 0' style='fill:#fff;stroke:#111;stroke-width:2'/>
<path id='e2' d='M0 1v46m0 -32l6 6l-6 6l-6 -6z' style='fill:#fff;stroke:#d62728;stroke-width:2'/>
<path id='e3' d='M0 1v46m-5 -31h10v10h-10z' style='fill:#fff;stroke:#e69f00;stroke-width:2'/>
</defs>
<rect width='1160' height='604' fill='#fff'/>
<text class='t' x='12' y='18'>Job log, by head and slot</text><text x='12' y='38'>slot</text>
<path class='w' d='M100 50h1000m-1000 48h1000m-1000 48h1000m-1000 48h1000m-1000 48h1000m-1000 48h1000m-1000 48h1000m-1000 48h1000m-1000 48h1000m-1000 48h1000'/>
<text x='12' y='76'>head 0</text><text x='12' y='124'>head 1</text><text x='12' y='172'>head 2</text><text x='12' y='220'>head 3</text>
<text x='12' y='268'>head 4</text><text x='12' y='316'>head 5</text><text x='12' y='364'>head 6</text><text x='12' y='412'>head 7</text>
<text x='12' y='456'>no such head,</text><text x='12' y='470'>or no head</text>
";

pub(crate) const LEGEND: &str =
    "<path class='r' d='M100 534h24'/><text x='130' y='538'>read</text><path class='f' d='M190 534h24'/><text x='220' y='538'>failed attempt</text>
<path class='l' d='M330 534h24'/><text x='360' y='538'>lease, from take to give</text><use href='#o' x='530' y='525'/><text x='542' y='538'>order granted</text>
<use href='#c' x='650' y='525'/><text x='662' y='538'>head closed</text><use href='#x' x='760' y='525'/><text x='772' y='538'>call refused</text>
<text x='100' y='576'>lane ended:</text><use href='#e1' x='190' y='551'/><text x='202' y='576'>1 Finished</text>
<use href='#e2' x='290' y='551'/><text x='302' y='576'>2 Faulted</text><use href='#e3' x='390' y='551'/><text x='402' y='576'>3 Held</text>
</svg>
";
